// The writer's tests 3 to 7 on the table itself, in file order: specs/Checking.antt. Each answers the refusal, or the place after what
// it tested, and takes the row of costs, a task's slot in it and the place, as its definition does; the bounds that it asks for keep the places from wrapping.
ghost use Rattle.std.specs.Prelude.{◌≡◌, ◌+◌, ◌*◌, ◌≤◌, ◌<◌, length};
ghost use Rattle.table.specs.Reading.{ranged};
ghost use Rattle.checks.specs.Checking.{row_keys, keys_of, edges_of, edges_tested, costs_tested, used_rows, parts_tested, task_tested, tasks_tested, checked};

use graph::set::Members;
use table::{Outcome, Table, Task};

// How many successor bits the first v vertices have: the whole count, not cut to a byte. (A loop: `sum` would owe that the counts' sum
// fits, which is known only step by step.)
fn edge_count(succ: [u16; 16], v: usize) -> u32
    requires { v ≤ 16 }
    ensures { (result ≡ length (keys_of v succ)) × (result ≤ 256) }
{
    let mut n = 0;
    for u in 0..v {
        n += succ[u].count_ones();
    }
    n
}

// How many edges a task of v vertices has; none where v is above sixteen.
pub fn edges_of(succ: [u16; 16], v: usize) -> usize
    ensures { result ≡ edges_of v succ }
{
    if 16 < v {
        return 0;
    }
    edge_count(succ, v) as usize
}

// A number held to its range: it, or the refusal.
fn ranged(x: u32, lo: u32, hi: u32, refusal: Outcome) -> Result<u32, Outcome>
    ensures { result ≡ ranged (λ _. refusal) lo hi 0 x }
{
    if x < lo || hi < x {
        return Err(refusal);
    }
    Ok(x)
}

// The costs of a task of v vertices, from a slot of the row on.
fn costs_tested(costs: &[u32; 256], slot: usize, v: usize, at: usize) -> Result<usize, Outcome>
    requires { (slot + v ≤ 256) × (at ≤ 1000000) }
    ensures { result ≡ costs_tested costs.now v at slot }
{
    let mut p = at;
    for u in 0..v {
        if 1_000_000 < costs[slot + u] {
            return Err(Outcome::Ticks(p));
        }
        p += 4;
    }
    Ok(p)
}

// The edges of vertex u one by one: the place of the first that is refused.
fn row_walked(bits: u16, u: usize, v: usize, at: usize) -> Result<usize, Outcome>
    requires { at ≤ 1000000 }
    ensures { result ≡ edges_tested v (row_keys 16 u 0 bits) at }
{
    let mut p = at;
    for w in Members::from(bits) {
        if v <= w || u == w {
            return Err(Outcome::Edge(p));
        }
        p += 2;
    }
    Ok(p)
}

// The edges of vertex u: where no bit is refused, the place after them is at once known.
fn row_tested(bits: u16, u: usize, v: usize, at: usize) -> Result<usize, Outcome>
    requires { (u < 16) × (v ≤ 16) × (at ≤ 1000000) }
    ensures { result ≡ edges_tested v (row_keys 16 u 0 bits) at }
{
    let high = u32::from(bits) >> v;
    if high == 0 && (bits >> u) % 2 == 0 {
        return Ok(at + 2 * (bits.count_ones() as usize));
    }
    row_walked(bits, u, v, at)
}

// The edges of the first v vertices.
fn edges_tested(succ: [u16; 16], v: usize, at: usize) -> Result<usize, Outcome>
    requires { (v ≤ 16) × (at ≤ 900000) }
    ensures { result ≡ edges_tested v (keys_of v succ) at }
{
    let mut p = at;
    for u in 0..v {
        p = row_tested(succ[u], u, v, p)?;
    }
    Ok(p)
}

// The successors of the first v vertices, and none from v on.
fn used_rows(succ: [u16; 16], v: usize) -> [u16; 16]
    requires { v ≤ 16 }
    ensures { result ≡ used_rows v succ }
{
    let mut rows = [0u16; 16];
    rows[..v].copy_from_slice(&succ[..v]);
    rows
}

// A task's costs, edges and cycles.
fn check_parts(
    succ: [u16; 16],
    costs: &[u32; 256],
    slot: usize,
    v: usize,
    at: usize,
) -> Result<usize, Outcome>
    requires { (v ≤ 16) × (slot + v ≤ 256) × (at ≤ 800000) }
    ensures { result ≡ parts_tested succ costs.now slot at v }
{
    let after_costs = costs_tested(costs, slot, v, at + 12)?;
    let next = edges_tested(succ, v, after_costs)?;
    if !graph::is_acyclic(used_rows(succ, v)) {
        return Err(Outcome::Cycle(at));
    }
    Ok(next)
}

// A task: its fields in order, then its parts.
fn check_task(task: Task, costs: &[u32; 256], slot: usize, at: usize) -> Result<usize, Outcome>
    requires { (slot + 16 ≤ 256) × (at ≤ 800000) }
    ensures { result ≡ task_tested task costs.now slot at }
{
    ranged(u32::from(task.v), 1, 16, Outcome::Range(at + 2))?;
    let v = usize::from(task.v);
    ranged(edge_count(task.succ, v), 0, 120, Outcome::Range(at + 3))?;
    let d = ranged(task.d, 1, 1_000_000, Outcome::Ticks(at + 4))?;
    let t = ranged(task.t, 1, 1_000_000, Outcome::Ticks(at + 8))?;
    // T is in its range by now, so this does not wrap
    if 4 * t < d {
        return Err(Outcome::Order(at + 8));
    }
    check_parts(task.succ, costs, slot, v, at)
}

// The tasks in order.
fn check_tasks(table: Table) -> Result<usize, Outcome>
    requires { table.n ≤ 16 }
    ensures { result ≡ tasks_tested table table.n 0 4 }
{
    let mut at = 4;
    for i in 0..usize::from(table.n) {
        at = check_task(table.tasks[i], &table.costs, 16 * i, at)?;
    }
    Ok(at)
}

// The tests 3 to 7 on a table: the refusal that a reader would give for the bytes that it stands for, or their number.
pub fn check(table: Table) -> Result<usize, Outcome>
    ensures { result ≡ checked table }
{
    ranged(u32::from(table.m), 1, 8, Outcome::Range(2))?;
    ranged(u32::from(table.n), 1, 16, Outcome::Range(3))?;
    check_tasks(table)
}
