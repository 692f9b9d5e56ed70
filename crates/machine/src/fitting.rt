// Which states fit a table, by the rows that a tick keeps. The rules are in specs/Fitting.antt; crate slots has those of one slot.
ghost use Rattle.std.specs.Prelude.{◌≡◌, ◌+◌, ◌%◌, ◌<◌, ◌&&◌, get_or, nat_eq, nat_lt, slice_index, slice_index_or};
ghost use Rattle.graph.specs.Words.{bit, all};
ghost use Rattle.table.specs.Memory.{no_task};
ghost use Rattle.slots.specs.Slots.{zero_place};
ghost use Rattle.machine.specs.Rows.{spaced_by, newest_by, live_by, slot_fits, wait_fits, ticks_of, rows_fit};

use crate::Phase;
use crate::rows::Rows;
use table::{Table, Task};

// A live slot is one of the oldest, or the place before it is live too and its deadline at least T ticks earlier.
fn spaced(live: u64, ticks: &[u32; 64], period: u32, s: usize) -> bool
    requires { s < 64 }
    ensures { result ≡ spaced_by live ticks.now period s }
{
    if s < 16 {
        return true;
    }
    let before = s - 16;
    (live >> before) % 2 == 1 && u64::from(ticks[before]) + u64::from(period) <= u64::from(ticks[s])
}

// The place after a slot is live too.
fn followed(live: u64, s: usize) -> bool
    requires { s < 64 }
    ensures { result ≡ (nat_lt s 48 && bit live (s + 16)) }
{
    s < 48 && (live >> (s + 16)) % 2 == 1
}

// The newest job of a task leaves it a wait of at least T minus D plus its ticks left.
fn newest(live: u64, ticks: u32, a: Task, wait: u32, s: usize) -> bool
    requires { s < 64 }
    ensures { result ≡ newest_by live ticks a.d a.t wait s }
{
    followed(live, s) || u64::from(a.t) + u64::from(ticks) <= u64::from(wait) + u64::from(a.d)
}

// A task's wait is below its period; 0 where there is no task.
fn wait_fits(n: usize, period: u32, wait: u32, i: usize) -> bool
    ensures { result ≡ wait_fits n period wait i }
{
    if n <= i { wait == 0 } else { wait < period }
}

// Each task's wait fits.
fn waits_fit(t: &Table, waits: &[u32; 16]) -> bool
    ensures { result ≡ all 16 (λ i. wait_fits t.now.n (get_or t.now.tasks i no_task).t (slice_index waits.now i) i) }
{
    (0..16usize).all(|i| wait_fits(usize::from(t.n), t.tasks[i].t, waits[i], i))
}

impl Rows {
    // A live slot of a task.
    fn live_fits(&self, t: &Table, ticks: &[u32; 64], remaining: &[u32; 1024], s: usize) -> bool
        requires { s < 64 }
        ensures { result ≡ live_by (slice_index_or t.now.tasks (s % 16) no_task) t.now.costs self.now.live ticks.now (slice_index self.now.waits (s % 16)) (slice_index self.now.work s) remaining.now s }
    {
        let task = t.tasks[s % 16];
        newest(self.live, ticks[s], task, self.waits[s % 16], s)
            && spaced(self.live, ticks, task.t, s)
            && slots::job_fits(task, &t.costs, ticks[s], self.work[s], remaining, s)
    }

    // A slot, live or not.
    fn slot_fits(&self, t: &Table, ticks: &[u32; 64], remaining: &[u32; 1024], s: usize) -> bool
        requires { s < 64 }
        ensures { result ≡ slot_fits t.now.n (slice_index_or t.now.tasks (s % 16) no_task) t.now.costs self.now.live ticks.now (slice_index self.now.waits (s % 16)) (slice_index self.now.work s) remaining.now s }
    {
        if (self.live >> s) % 2 != 1 {
            return slots::zero_place(false, self.work[s], remaining, s);
        }
        s % 16 < usize::from(t.n) && self.live_fits(t, ticks, remaining, s)
    }

    // Each slot fits.
    fn slots_fit(&self, t: &Table, remaining: &[u32; 1024]) -> bool
        ensures { result ≡ all 64 (λ s. slot_fits t.now.n (slice_index_or t.now.tasks (s % 16) no_task) t.now.costs self.now.live (ticks_of self.now) (slice_index self.now.waits (s % 16)) (slice_index self.now.work s) remaining.now s) }
    {
        let ticks = self.ticks_left();
        (0..64usize).all(|s| self.slot_fits(t, &ticks, remaining, s))
    }

    // Each slot is one of zeros.
    fn all_zero(&self, remaining: &[u32; 1024]) -> bool
        ensures { result ≡ all 64 (λ s. zero_place (bit self.now.live s) (slice_index self.now.work s) remaining.now s) }
    {
        (0..64usize).all(|s| {
            slots::zero_place((self.live >> s) % 2 == 1, self.work[s], remaining, s)
        })
    }

    // No task has a wait.
    fn no_waits(&self) -> bool
        ensures { result ≡ all 16 (λ i. nat_eq (slice_index self.now.waits i) 0) }
    {
        self.waits.iter().all(|wait| *wait == 0)
    }

    // Whether a state, any numbers in it, fits a table.
    pub(crate) fn fits(&self, t: &Table, remaining: &[u32; 1024]) -> bool
        ensures { result ≡ rows_fit t.now self.now remaining.now }
    {
        match self.phase {
            Phase::Running => waits_fit(t, &self.waits) && self.slots_fit(t, remaining),
            Phase::Stopped(at) => at < t.n && self.no_waits() && self.all_zero(remaining),
        }
    }
}
