// Steps 5 and 6 where the rows lie: which jobs end, what closes their gaps, and which deadline is missed.
ghost use Rattle.std.specs.Prelude.{◌≡◌, ◌+◌, ◌*◌, ◌/◌, ◌%◌, ◌<◌, Some, None, false, ◌&&◌, length, ◌==◌, nat_lt, slice_index};
ghost use Rattle.graph.specs.Words.{pick, bit, row, lowest_or, set_of};
ghost use Rattle.machine.specs.Steps.{any_place};
ghost use Rattle.machine.specs.Rows.{source_by, closed_by};

use crate::held;
use graph::set::Members;

// Step 5: the live slots with no work left.
pub(crate) fn done_of(live: u64, work: &[u64; 64]) -> u64
    ensures { result ≡ set_of 64 (λ s. bit live s && slice_index work.now s == 0) }
{
    held::passing(live, |s| work[s] == 0)
}

// The tasks of a set of slots.
pub(crate) fn tasks_in(set: u64) -> u16
    ensures { result ≡ set_of 16 (λ i. any_place (λ p. bit set (16 * p + i))) }
{
    let low = set | (set >> 16);
    let any = low | (low >> 32);
    (any % 65536) as u16
}

// Step 6: the lowest task with a live slot whose deadline is the clock.
pub(crate) fn first_late(live: u64, deadlines: &[u32; 64], clock: u32) -> Option<u8>
    ensures { result ≡ lowest_or 16 (λ i. any_place (λ p. bit live (16 * p + i) && slice_index deadlines.now (16 * p + i) == clock)) Some None }
{
    let late = held::passing(live, |s| deadlines[s] == clock);
    lowest_in(tasks_in(late))
}

// The lowest member. `Members::from(set).next()` would count in usize and need a cast within the option.
fn lowest_in(set: u16) -> Option<u8>
    ensures { result ≡ lowest_or 16 (bit set) Some None }
{
    if set == 0 {
        None
    } else {
        Some(set.trailing_zeros() as u8)
    }
}

// The slots of the tasks in a set.
fn slots_of(tasks: u16) -> u64
    ensures { result ≡ set_of 64 (λ s. bit tasks (s % 16)) }
{
    u64::from(tasks) * 0x0001_0001_0001_0001
}

// The slot whose job comes to stand at slot s: of those of its task that go on the one as old as s has room for.
fn source(going: u64, s: usize) -> Option<usize>
    requires { s < 64 }
    ensures { result ≡ pick (nat_lt (source_by going s) 64) (Some (source_by going s)) None }
{
    let task = s % 16;
    let mut wanted = s / 16;
    for p in 0..4 {
        let other = 16 * p + task;
        if (going >> other) % 2 == 1 {
            if wanted == 0 {
                return Some(other);
            }
            wanted -= 1;
        }
    }
    None
}

// What remains of a slot, taken over from another.
fn move_rest(from: usize, to: usize, remaining: &mut [u32; 1024])
    requires { (from < 64) × (to < 64) }
    ensures { remaining.new ≡ row 1024 (λ k. pick (k / 16 == to) (slice_index remaining.old (16 * from + k % 16)) (slice_index remaining.old k)) }
{
    remaining.copy_within(16 * from..16 * from + 16, 16 * to);
}

// Nothing remains of a slot.
fn clear_rest(s: usize, remaining: &mut [u32; 1024])
    requires { s < 64 }
    ensures { remaining.new ≡ row 1024 (λ k. pick (k / 16 == s) 0 (slice_index remaining.old k)) }
{
    remaining[16 * s..16 * s + 16].fill(0);
}

// Step 5: for each task in `over` those of its jobs that go on move down to its first places, and the places behind them are zero. What comes back is
// the set of slots with a live job. From the lowest slot up: what is still to be moved stands at or above the slot that is written.
pub(crate) fn close(
    over: u16,
    going: u64,
    deadlines: &mut [u32; 64],
    remaining: &mut [u32; 1024],
    work: &mut [u64; 64],
) -> u64
    ensures { (result ≡ set_of 64 (λ s. closed_by over going s (bit going) false)) × (deadlines.new ≡ row 64 (λ s. closed_by over going s (λ q. slice_index deadlines.old q) 0)) × (remaining.new ≡ row 1024 (λ k. closed_by over going (k / 16) (λ q. slice_index remaining.old (16 * q + k % 16)) 0)) × (work.new ≡ row 64 (λ s. closed_by over going s (λ q. slice_index work.old q) 0)) }
{
    let slots = slots_of(over);
    let mut live = going & !slots;
    for s in Members::of(slots) {
        if let Some(from) = source(going, s) {
            move_rest(from, s, remaining);
            deadlines[s] = deadlines[from];
            work[s] = work[from];
            live |= 1u64 << s;
        } else {
            clear_rest(s, remaining);
            deadlines[s] = 0;
            work[s] = 0;
        }
    }
    live
}
