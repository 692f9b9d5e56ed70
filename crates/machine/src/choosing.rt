// Steps 2 and 3 of a tick: which vertices are available, and the first m of them in rank order. A set of vertices is sixteen bits.
ghost use Rattle.std.specs.Prelude.{◌≡◌, ℕ, ◌+◌, ◌*◌, ◌%◌, ◌<◌, ◌≤◌, min, true, false, not, ◌&&◌, length, take, ◌==◌, nat_lt, slice_index};
ghost use Rattle.graph.specs.Words.{pick, bit, row, is_in, Distinct, set_of};
ghost use Rattle.table.specs.declared.Table.{Table};
ghost use Rattle.table.specs.Memory.{task};
ghost use Rattle.slots.specs.Slots.{is_ready};
ghost use Rattle.machine.specs.declared.State.{State};
ghost use Rattle.machine.specs.States.{live, deadline, left};
ghost use Rattle.machine.specs.Steps.{available_sets, own_choice, listed};
ghost use Rattle.machine.specs.Rows.{order_of, before_by, RanksFirst};

use crate::rows::Rows;
use crate::{Chosen, held};
use graph::set::Members;
use table::Table;

// Step 2 at the slots of a set: the ready vertices of each; none elsewhere.
pub(crate) fn sets_of(t: &Table, live: u64, remaining: &[u32; 1024]) -> [u16; 64]
    ensures { result ≡ row 64 (λ s. pick (bit live s) (set_of 16 (is_ready (task t.now (s % 16)).succ (task t.now (s % 16)).v remaining.now s)) 0) }
{
    held::at_slots(0, live, |s| {
        let a = t.tasks[s % 16];
        slots::ready(a.succ, usize::from(a.v), remaining, s)
    })
}

// The slots of a set that have a vertex in their own.
fn some_in(live: u64, sets: &[u16; 64]) -> u64
    ensures { result ≡ set_of 64 (λ s. bit live s && nat_lt 0 (slice_index sets.now s)) }
{
    held::passing(live, |s| sets[s] > 0)
}

// Where a slot stands among those with as many ticks left: by task, then age place.
fn order_of(s: usize) -> usize
    requires { s < 64 }
    ensures { result ≡ order_of s }
{
    4 * (s % 16) + s / 16
}

// Whether slot a ranks before slot b.
fn ranks_before(ticks: &[u32; 64], a: usize, b: usize) -> bool
    requires { (a < 64) × (b < 64) }
    ensures { result ≡ before_by ticks.now a b }
{
    (ticks[a], order_of(a)) < (ticks[b], order_of(b))
}

// The slot of a set, not empty, that ranks first.
fn next_slot(among: u64, ticks: &[u32; 64]) -> usize
    requires { 0 < among }
    ensures { RanksFirst among ticks.now result }
{
    let mut best = among.trailing_zeros() as usize;
    for s in Members::of(among & (among - 1)) {
        if ranks_before(ticks, s, best) {
            best = s;
        }
    }
    best
}

// The lowest vertex of a set that is not empty.
fn first_vertex(set: u16) -> usize
    requires { 0 < set }
    ensures { (result < 16) × (bit set result ≡ true) × ((j : ℕ) → j < result → bit set j ≡ false) }
{
    set.trailing_zeros() as usize
}

// The number of vertex u of slot s in a choice.
fn key_of(s: usize, u: usize) -> u16
    requires { (s < 64) × (u < 16) }
    ensures { result ≡ 16 * order_of s + u }
{
    (16 * order_of(s) + u) as u16
}

// Step 3: at most m times the vertex that ranks first of those that are left. The sets are those of the available vertices, and a slot that is not
// live has none.
pub(crate) fn choose(m: u8, begun: u64, given: [u16; 64], ticks: &[u32; 64]) -> Chosen
    requires { (m ≤ 8) × ((s : ℕ) → s < 64 → bit begun s ≡ false → slice_index given s ≡ 0) }
    ensures { ((t : Table) (st : State) → t.m ≡ m → given ≡ available_sets t st → ((i p : ℕ) → i < 16 → p < 4 → live st i p ≡ true → slice_index ticks.now (16 * p + i) ≡ left st i p) → listed result ≡ own_choice t st) × (result.count ≤ 8) }
{
    let mut sets = given;
    let mut among = some_in(begun, &sets);
    let mut keys = [0u16; 8];
    let most = usize::from(m);
    for count in 0..most {
        if among == 0 {
            return Chosen { keys, count };
        }
        let s = next_slot(among, ticks);
        let u = first_vertex(sets[s]);
        keys[count] = key_of(s, u);
        sets[s] &= !(1u16 << u);
        if sets[s] == 0 {
            among &= !(1u64 << s);
        }
    }
    Chosen { keys, count: most }
}

// Steps 2 and 3: the machine's own choice, once step 1 is made.
pub(crate) fn own_choice(t: Table, rows: &Rows, remaining: &[u32; 1024]) -> Chosen
    requires { t.m ≤ 8 }
    ensures { (st : State) → st.clock ≡ rows.now.clock → st.remaining ≡ remaining.now → ((i p : ℕ) → i < 16 → p < 4 → bit rows.now.live (16 * p + i) ≡ live st i p) → ((i p : ℕ) → i < 16 → p < 4 → live st i p ≡ true → slice_index rows.now.deadlines (16 * p + i) ≡ deadline st i p) → listed result ≡ own_choice t st }
{
    let sets = sets_of(&t, rows.live, remaining);
    choose(t.m, rows.live, sets, &rows.ticks_left())
}

// The vertices that a choice lists, none of them twice.
pub(crate) fn once(chosen: Chosen) -> Chosen
    ensures { Distinct (listed result) × ((k : ℕ) → is_in k (listed result) ≡ is_in k (listed chosen)) }
{
    let mut keys = [0u16; 8];
    let mut count = 0;
    for j in 0..chosen.count.min(8) {
        let k = chosen.keys[j] % 1024;
        if !keys[..count].contains(&k) {
            keys[count] = k;
            count += 1;
        }
    }
    Chosen { keys, count }
}
