// A state's tasks taken apart for a tick: the set of slots with a live job, and their deadlines, and the waits of the tasks, in rows that can be
// lent. Slot 16 * p + i is age place p of task i: so the oldest jobs of all tasks come first, and what remains and the work lie in their order.
// A slot is a number and no type of its own: it comes from a range or a set, and is an index at once.
ghost use Rattle.std.specs.Prelude.{◌≡◌, ℕ, Bool, ◌&&◌, ◌+◌, ◌-◌, ◌*◌, ◌<◌, slice_index, slice_index_or};
ghost use Rattle.graph.specs.Words.{pick, bit, row, set_of};
ghost use Rattle.machine.specs.declared.Job.TheVariants.{Nothing, Live};
ghost use Rattle.machine.specs.States.{is_live, deadline_of, ticks_left};
ghost use Rattle.machine.specs.Rows.{no_task, job_in, place_by, tasks_by};

use crate::{Job, TaskState};
use graph::set::Members;
use std::array;

impl Job {
    // Whether there is a live job.
    pub fn is_live(self) -> bool
        ensures { result ≡ is_live self }
    {
        matches!(self, Job::Live { .. })
    }

    // A live job's deadline; 0 where there is none.
    pub fn deadline(self) -> u32
        ensures { result ≡ deadline_of self }
    {
        match self {
            Job::Nothing => 0,
            Job::Live { deadline } => deadline,
        }
    }
}

// The slots with a live job.
pub(crate) fn live_set(states: [TaskState; 16]) -> u64
    ensures { result ≡ set_of 64 (λ s. is_live (job_in states s)) }
{
    passing(u64::MAX, |s| states[s % 16].jobs[s / 16].is_live())
}

// The slots of a set that pass a test.
pub(crate) fn passing<F: Fn(usize) -> bool>(set: u64, test: F) -> u64
    requires { (s : ℕ) → s < 64 → F.pre test s }
    ensures { (p : ℕ → Bool) → ((s : ℕ) (r : Bool) → s < 64 → F.post test s r → r ≡ p s) → result ≡ set_of 64 (λ s. bit set s && p s) }
{
    let mut passing = 0;
    for s in Members::of(set) {
        if test(s) {
            passing |= 1u64 << s;
        }
    }
    passing
}

// A value at each slot of a set; nothing elsewhere.
pub(crate) fn at_slots<T: Copy, F: Fn(usize) -> T>(nothing: T, set: u64, value: F) -> [T; 64]
    requires { (s : ℕ) → s < 64 → F.pre value s }
    ensures { (f : ℕ → T) → ((s : ℕ) (r : T) → s < 64 → F.post value s r → r ≡ f s) → result ≡ row 64 (λ s. pick (bit set s) (f s) nothing) }
{
    let mut row = [nothing; 64];
    for s in Members::of(set) {
        row[s] = value(s);
    }
    row
}

// The deadlines of the slots in a set; 0 elsewhere.
pub(crate) fn deadlines_of(states: [TaskState; 16], set: u64) -> [u32; 64]
    ensures { result ≡ row 64 (λ s. pick (bit set s) (deadline_of (job_in states s)) 0) }
{
    at_slots(0, set, |s| states[s % 16].jobs[s / 16].deadline())
}

// Each task's wait.
pub(crate) fn waits_of(states: [TaskState; 16]) -> [u32; 16]
    ensures { result ≡ row 16 (λ i. (slice_index_or states i no_task).wait) }
{
    array::from_fn(|i| states[i].wait)
}

// The ticks left of the slots in a set; 0 elsewhere.
pub(crate) fn left_of(deadlines: &[u32; 64], clock: u32, set: u64) -> [u32; 64]
    ensures { result ≡ row 64 (λ s. pick (bit set s) (ticks_left (slice_index deadlines.now s) clock) 0) }
{
    at_slots(0, set, |s| deadlines[s].wrapping_sub(clock))
}

// A place, put together from what is stored: the flag is a value, no switch on a step.
fn place_of(live: bool, deadline: u32) -> Job
    ensures { result ≡ pick live (Live deadline) Nothing }
{
    if live {
        Job::Live { deadline }
    } else {
        Job::Nothing
    }
}

// A task's four places.
fn places(live: u64, deadlines: &[u32; 64], i: usize) -> [Job; 4]
    requires { i < 16 }
    ensures { result ≡ row 4 (place_by live deadlines.now i) }
{
    array::from_fn(|p| {
        let s = 16 * p + i;
        place_of((live >> s) % 2 == 1, deadlines[s])
    })
}

// The tasks put together, each wait one less, not below 0.
pub(crate) fn together(live: u64, deadlines: &[u32; 64], waits: &[u32; 16]) -> [TaskState; 16]
    ensures { result ≡ tasks_by live deadlines.now waits.now }
{
    array::from_fn(|i| TaskState {
        wait: waits[i].saturating_sub(1),
        jobs: places(live, deadlines, i),
    })
}
