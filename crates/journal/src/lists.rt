// The tests of what a row lists, 44 to 46, against the available vertices: those of a slot, 16 times age place plus task, are a set of sixteen bits. The
// definitions are in specs/Rows.antt, and those of the parts in specs/Listing.antt. Each test takes what
// the one before has shown of the row.
ghost use Rattle.std.specs.Prelude.{◌≡◌, true, ◌&&◌, ◌||◌, not, ℕ, ◌%◌, ◌≤◌, ◌<◌, min, length, get_or, ltb, leb, eqb, sum_by};
ghost use Rattle.std.specs.Int.Count.{ones};
ghost use Rattle.graph.specs.Words.{bit, all, row as row_of, largest};
ghost use Rattle.journal.specs.Rows.{row_count, listed, passes_over};
ghost use Rattle.table.specs.declared.Table.{Table};
ghost use Rattle.machine.specs.declared.State.{State};
ghost use Rattle.machine.specs.Steps.{available_sets, left_at};
ghost use Rattle.journal.specs.Listing.{in_set, all_in, AreVertices, row_slot, Without};

use crate::fields::Row;
use machine::Chosen;

// Whether a triple is a vertex in its slot's set.
fn is_in(sets: &[u16; 64], i: usize, p: usize, u: usize) -> bool
    ensures { result ≡ in_set sets.now i p u }
{
    if 16 <= i || 4 <= p || 16 <= u {
        return false;
    }
    (sets[16 * p + i] >> u) % 2 == 1
}

// Whether each listed triple is a vertex in its slot's set.
pub(crate) fn are_in(sets: &[u16; 64], row: &Row) -> bool
    ensures { result ≡ all_in sets.now row.now.bytes.now row.now.at }
{
    for j in 0..row.count() {
        if !is_in(sets, row.task(j), row.age(j), row.vertex(j)) {
            return false;
        }
    }
    true
}

// How many vertices all sets have.
fn total(sets: &[u16]) -> usize
    requires { length sets.now ≤ 64 }
    ensures { result ≡ sum_by ones sets.now }
{
    sets.iter().map(|set| set.count_ones() as usize).sum()
}

// 45: whether `count` is below the smaller of m and the vertices of all sets, which are counted only where m does not decide.
pub(crate) fn is_few(count: usize, m: u8, sets: &[u16; 64]) -> bool
    ensures { result ≡ ltb count (min m (sum_by ones sets.now)) }
{
    count < usize::from(m) && count < total(sets)
}

// A set without u.
fn taken_out(set: u16, u: usize) -> u16
    requires { u < 16 }
    ensures { (k : ℕ) → k < 16 → bit result k ≡ (bit set k && not (eqb k u)) }
{
    set & !(1u16 << u)
}

// The sets without what is listed.
fn unlisted(sets: &[u16; 64], row: &Row) -> [u16; 64]
    requires { AreVertices row.now.bytes.now row.now.at }
    ensures { Without sets.now (listed row.now.bytes.now row.now.at) result }
{
    let mut rest = *sets;
    for j in 0..row.count() {
        let slot = row.slot(j);
        rest[slot] = taken_out(rest[slot], row.vertex(j));
    }
    rest
}

// The most ticks left of a listed vertex.
fn most_left(ticks: &[u32; 64], row: &Row) -> u32
    requires { AreVertices row.now.bytes.now row.now.at }
    ensures { result ≡ largest (row_count row.now.bytes.now row.now.at) (λ j. get_or ticks.now (row_slot row.now.bytes.now row.now.at j) 0) }
{
    let mut most: u32 = 0;
    for j in 0..row.count() {
        most = most.max(ticks[row.slot(j)]);
    }
    most
}

// Whether a slot with a vertex left in its set has fewer ticks left than `most`.
fn is_sooner(rest: &[u16; 64], ticks: &[u32; 64], most: u32) -> bool
    ensures { result ≡ not (all 64 (λ k. eqb (get_or rest.now k 0) 0 || leb most (get_or ticks.now k 0))) }
{
    for k in 0..64 {
        if rest[k] != 0 && ticks[k] < most {
            return true;
        }
    }
    false
}

// 46, given the available vertices and the ticks left of each slot; each listed vertex is available.
pub(crate) fn is_passing_over(sets: &[u16; 64], ticks: &[u32; 64], row: &Row) -> bool
    requires { all_in sets.now row.now.bytes.now row.now.at ≡ true }
    ensures { (t : Table) (st : State) → sets.now ≡ available_sets t st → ticks.now ≡ row_of 64 (left_at st) → result ≡ passes_over t st (listed row.now.bytes.now row.now.at) }
{
    is_sooner(&unlisted(sets, row), ticks, most_left(ticks, row))
}

// What the row lists, as the machine's choice.
pub(crate) fn chosen(row: &Row) -> Chosen
    requires vertices { AreVertices row.now.bytes.now row.now.at }
    requires few { row_count row.now.bytes.now row.now.at ≤ 8 }
    ensures { row_of (min result.count 8) (λ j. get_or result.keys j 0 % 1024) ≡ listed row.now.bytes.now row.now.at }
{
    let count = row.count();
    let mut keys = [0u16; 8];
    for j in 0..count {
        keys[j] = row.key(j);
    }
    Chosen { keys, count }
}
