// Steps 1 and 4 of a tick where the rows lie: each is lent and changed in place, at the slots of a set.
ghost use Rattle.std.specs.Prelude.{◌≡◌, ◌-◌, ◌/◌, ◌%◌, ◌<◌, ◌&&◌, length, ◌==◌, nat_lt, slice_index};
ghost use Rattle.graph.specs.Words.{pick, bit, row, is_in, Distinct, lowest_or, set_of};
ghost use Rattle.slots.specs.Slots.{work_left};
ghost use Rattle.machine.specs.declared.State.{State};
ghost use Rattle.machine.specs.Steps.{name_at, listed, run_of};
ghost use Rattle.machine.specs.Rows.{place_in, used_by, is_new_by, begun_deadlines, begun_waits, begun_rest, begun_work};

use crate::{Chosen, held};
use graph::set::Members;
use table::Table;

// Whether task i is named though it has to wait.
fn is_early(named: u16, waits: &[u32; 16], i: u8) -> bool
    requires { i < 16 }
    ensures { result ≡ (bit named i && nat_lt 0 (slice_index waits.now i)) }
{
    (named >> i) % 2 == 1 && 0 < waits[i as usize]
}

// 33: the lowest named task with a wait above 0.
pub(crate) fn first_early(named: u16, n: u8, waits: &[u32; 16]) -> Option<u8>
    ensures { result ≡ lowest_or n (λ i. bit named i && nat_lt 0 (slice_index waits.now i)) Some None }
{
    (0..n.min(16)).find(|i| is_early(named, waits, *i))
}

// How many places of task i are in use.
fn places_used(live: u64, i: usize) -> usize
    requires { i < 16 }
    ensures { result ≡ used_by live i }
{
    (0..4usize)
        .filter(|p| (live >> (16 * *p + i)) % 2 == 1)
        .count()
}

// Whether a slot gets a new job: its task is named, and it is the first place that is not in use.
fn is_new(live: u64, named: u16, s: usize) -> bool
    requires { s < 64 }
    ensures { result ≡ is_new_by live named s }
{
    (named >> (s % 16)) % 2 == 1 && s / 16 == places_used(live, s % 16)
}

// Step 1: the slots that get a new job.
pub(crate) fn fresh(live: u64, named: u16) -> u64
    ensures { result ≡ set_of 64 (is_new_by live named) }
{
    if named == 0 {
        return 0;
    }
    held::passing(u64::MAX, |s| is_new(live, named, s))
}

// Step 1 of the deadlines: the clock plus D, wrapped.
pub(crate) fn begin(t: Table, clock: u32, fresh: u64, deadlines: &mut [u32; 64])
    ensures { deadlines.new ≡ begun_deadlines t clock fresh deadlines.old }
{
    for s in Members::of(fresh) {
        deadlines[s] = clock.wrapping_add(t.tasks[s % 16].d);
    }
}

// Step 1 of the waits of the tasks named: T, of which this tick takes one.
pub(crate) fn wait_anew(t: Table, named: u16, waits: &mut [u32; 16])
    ensures { waits.new ≡ begun_waits t named waits.old }
{
    for i in Members::from(named) {
        waits[i] = t.tasks[i].t;
    }
}

// The sixteen costs of a slot's task.
fn put_slot(costs: &[u32; 256], s: usize, remaining: &mut [u32; 1024])
    requires { s < 64 }
    ensures { remaining.new ≡ row 1024 (λ k. pick (k / 16 == s) (slice_index costs.now (k % 256)) (slice_index remaining.old k)) }
{
    let task = s % 16;
    remaining[16 * s..16 * s + 16].copy_from_slice(&costs[16 * task..16 * task + 16]);
}

// Step 1 of what remains: the costs at each new slot.
pub(crate) fn put_costs(costs: &[u32; 256], fresh: u64, remaining: &mut [u32; 1024])
    ensures { remaining.new ≡ begun_rest costs.now fresh remaining.old }
{
    for s in Members::of(fresh) {
        put_slot(costs, s, remaining);
    }
}

// Step 1 of the work, once that of what remains is made: its sum at each new slot.
pub(crate) fn put_work(remaining: &[u32; 1024], fresh: u64, work: &mut [u64; 64])
    ensures { work.new ≡ row 64 (λ s. pick (bit fresh s) (work_left remaining.now s) (slice_index work.old s)) }
{
    for s in Members::of(fresh) {
        work[s] = slots::work_left(remaining, s);
    }
}

// Where in the four rows the vertex with a number in a choice lies. The definition of its name fixes the number.
fn place_in(key: usize) -> usize
    requires { key < 1024 }
    ensures { (result ≡ place_in key) × (result < 1024) }
{
    256 * (key / 16 % 4) + 16 * (key / 64) + key % 16
}

// Step 4 of what remains and of the work: one tick less for each vertex chosen of which something remains, none of them twice.
pub(crate) fn run(chosen: Chosen, remaining: &mut [u32; 1024], work: &mut [u64; 64])
    requires { Distinct (listed chosen) }
    ensures { (remaining.new ≡ row 1024 (λ k. pick (is_in (name_at k) (listed chosen)) (slice_index remaining.old k - 1) (slice_index remaining.old k))) × ((st : State) → st.remaining ≡ remaining.old → work.new ≡ row 64 (λ s. slice_index work.old s - run_of st (s % 16) (s / 16) (listed chosen))) }
{
    for j in 0..chosen.count.min(8) {
        let k = place_in(usize::from(chosen.keys[j] % 1024));
        if remaining[k] != 0 {
            remaining[k] -= 1;
            work[k / 16] = work[k / 16].saturating_sub(1);
        }
    }
}
