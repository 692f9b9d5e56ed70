// A state taken apart for a tick: its rows, changed where they lie, step by step. Slot 16 * p + i is age place p of task i. What remains of the
// vertices, four thousand bytes, stays beside them: a struct of that size is cleared before it is filled, 19 instructions in a hundred more.
ghost use Rattle.std.specs.Prelude.{◌≡◌, ◌+◌, ◌*◌, ◌⊎◌, ◌&&◌, ◌==◌, slice_index};
ghost use Rattle.graph.specs.Words.{bit, Distinct, set_of};
ghost use Rattle.machine.specs.Steps.{any_place, listed};
ghost use Rattle.machine.specs.Rows.{taken_apart, ticks_of, begun, rest_begun, with_run, rest_run, state_after, Tidy};
ghost use Rattle.machine.specs.Ticking.{advance_to};

use crate::{Answer, Chosen, Phase, State, Ticked, closing, held, lent, opening};
use table::Table;

#[derive(Drop)]
pub(crate) struct Rows {
    pub(crate) clock: u32,
    pub(crate) phase: Phase,
    // The slots with a live job.
    pub(crate) live: u64,
    // Their deadlines; 0 elsewhere.
    pub(crate) deadlines: [u32; 64],
    // Each task's wait.
    pub(crate) waits: [u32; 16],
    pub(crate) work: [u64; 64],
}

impl Rows {
    pub(crate) fn of(st: &State) -> Rows
        ensures { result ≡ taken_apart st.now }
    {
        let live = held::live_set(st.tasks);
        Rows {
            clock: st.clock,
            phase: st.phase,
            live,
            deadlines: held::deadlines_of(st.tasks, live),
            waits: held::waits_of(st.tasks),
            work: st.work,
        }
    }

    // The ticks left of the slots with a live job; 0 elsewhere.
    pub(crate) fn ticks_left(&self) -> [u32; 64]
        ensures { result ≡ ticks_of self.now }
    {
        held::left_of(&self.deadlines, self.clock, self.live)
    }

    // Step 1.
    pub(crate) fn release(&mut self, t: Table, named: u16, remaining: &mut [u32; 1024])
        ensures { (self.new ≡ begun t named remaining.old self.old) × (remaining.new ≡ rest_begun t named remaining.old self.old) }
    {
        let fresh = lent::fresh(self.live, named);
        lent::begin(t, self.clock, fresh, &mut self.deadlines);
        lent::wait_anew(t, named, &mut self.waits);
        lent::put_costs(&t.costs, fresh, remaining);
        lent::put_work(remaining, fresh, &mut self.work);
        self.live |= fresh;
    }

    // Step 4, of vertices none of which is listed twice.
    pub(crate) fn run(&mut self, chosen: Chosen, remaining: &mut [u32; 1024])
        requires { Distinct (listed chosen) }
        ensures { (self.new ≡ with_run (listed chosen) remaining.old self.old) × (remaining.new ≡ rest_run (listed chosen) remaining.old) }
    {
        lent::run(chosen, remaining, &mut self.work);
    }

    // The live slots with no work left.
    pub(crate) fn done(&self) -> u64
        ensures { result ≡ set_of 64 (λ s. bit self.now.live s && slice_index self.now.work s == 0) }
    {
        closing::done_of(self.live, &self.work)
    }

    // Steps 5 and 6, of the state after step 4: the slots in `done` have ended, and the tasks in `gaps` are closed up. That is every task, or, where
    // the rows are tidy, those of which a job ended.
    pub(crate) fn told(
        &mut self,
        chosen: Chosen,
        done: u64,
        gaps: u16,
        remaining: &mut [u32; 1024],
    ) -> Ticked
        requires ended { done ≡ set_of 64 (λ s. bit self.old.live s && slice_index self.old.work s == 0) }
        requires closed { (gaps ≡ 65535) ⊎ ((gaps ≡ set_of 16 (λ i. any_place (λ p. bit done (16 * p + i)))) × Tidy self.old.live remaining.old self.old.work) }
        ensures { result ≡ advance_to (listed chosen) (state_after self.old remaining.old) }
    {
        let over = closing::tasks_in(done);
        let live = closing::close(
            gaps,
            self.live & !done,
            &mut self.deadlines,
            remaining,
            &mut self.work,
        );
        let next = self.clock.wrapping_add(1);
        match closing::first_late(live, &self.deadlines, next) {
            Some(late) => Ticked {
                answer: Answer::of(34, late, chosen, over),
                state: opening::zeros(next, Phase::Stopped(late)),
            },
            None => Ticked {
                answer: Answer::of(0, 255, chosen, over),
                state: State {
                    clock: next,
                    phase: self.phase,
                    tasks: held::together(live, &self.deadlines, &self.waits),
                    remaining: *remaining,
                    work: self.work,
                },
            },
        }
    }
}
