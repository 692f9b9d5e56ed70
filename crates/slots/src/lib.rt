// What the code asks of one slot's numbers, clause by clause. The rules are in specs/Slots.antt. Slot 16 * p + i is age place p of task i, and
// what remains of its vertex u lies at 16 times slot plus u. Each function takes the row and the slot, as its definition does.
#![tactic(auto)]

ghost use Rattle.std.specs.Prelude.{◌≡◌, ◌&&◌, ◌||◌, not, ℕ, ◌*◌, ◌≤◌, ◌<◌, eqb, length, take, drop};
ghost use Rattle.graph.specs.Words.{bit, all, set_of};
ghost use Rattle.slots.specs.Slots.{at, cost_at, nothing_left, work_left, something_left, is_ready, within_cost, whole_behind, job_fits, zero_place};

use table::Task;

// The sixteen numbers of one of the sixty-four slots.
fn of_slot(remaining: &[u32; 1024], s: usize) -> &[u32]
    requires { s < 64 }
    ensures { (result.now ≡ take 16 (drop (16 * s) remaining.now)) × (length result.now ≡ 16) }
{
    &remaining[16 * s..16 * s + 16]
}

// Whether nothing remains of slot s: its sixteen numbers or-ed together, with no branch in between.
pub fn nothing_left(remaining: &[u32; 1024], s: usize) -> bool
    ensures { result ≡ nothing_left remaining.now s }
{
    if s >= 64 {
        return true;
    }
    of_slot(remaining, s).iter().fold(0, |any, left| any | left) == 0
}

// What remains of slot s: its sixteen numbers added up.
pub fn work_left(remaining: &[u32; 1024], s: usize) -> u64
    ensures { result ≡ work_left remaining.now s }
{
    if s >= 64 {
        return 0;
    }
    let slot = of_slot(remaining, s);
    slot.iter().map(|left| u64::from(*left)).sum()
}

// The vertices of slot s of which something remains.
pub fn unfinished(remaining: &[u32; 1024], s: usize) -> u16
    ensures { result ≡ set_of 16 (something_left remaining.now s) }
{
    if s >= 64 {
        return 0;
    }
    let mut set = 0;
    for (u, left) in of_slot(remaining, s).iter().enumerate() {
        if *left != 0 {
            set |= 1 << u;
        }
    }
    set
}

// The vertices of a slot that are ready: something remains of them, and nothing of the first v that is not done leads to them.
pub fn ready(succ: [u16; 16], v: usize, remaining: &[u32; 1024], s: usize) -> u16
    ensures { result ≡ set_of 16 (is_ready succ v remaining.now s) }
{
    let unfinished = unfinished(remaining, s);
    unfinished & !graph::held_back(succ, v, unfinished)
}

// A place of zeros: not live, no work stored, and nothing remains. The flag is a value, as the definition has it.
pub fn zero_place(live: bool, work: u64, remaining: &[u32; 1024], s: usize) -> bool
    ensures { result ≡ zero_place live work remaining.now s }
{
    !live && work == 0 && nothing_left(remaining, s)
}

// No remaining above its cost.
fn within_cost(costs: &[u32; 256], remaining: &[u32; 1024], s: usize) -> bool
    requires { s < 64 }
    ensures { result ≡ within_cost costs.now remaining.now s }
{
    for u in 0..16 {
        let k = 16 * s + u;
        if remaining[k] > costs[k % 256] {
            return false;
        }
    }
    true
}

// Each of the first v vertices that is in a set has its whole cost remaining.
fn whole_in(set: u16, v: usize, costs: &[u32; 256], remaining: &[u32; 1024], s: usize) -> bool
    requires { (s < 64) × (v ≤ 16) }
    ensures { result ≡ all v (λ u. not (bit set u) || eqb (at remaining.now s u) (cost_at costs.now s u)) }
{
    for u in 0..v {
        let k = 16 * s + u;
        if (set >> u) % 2 == 1 && remaining[k] != costs[k % 256] {
            return false;
        }
    }
    true
}

// Each vertex with a predecessor that is not done has its whole cost remaining.
fn whole_behind(a: Task, costs: &[u32; 256], remaining: &[u32; 1024], s: usize) -> bool
    requires { s < 64 }
    ensures { result ≡ whole_behind a costs.now remaining.now s }
{
    let v = usize::from(a.v).min(16);
    let behind = graph::held_back(a.succ, v, unfinished(remaining, s));
    whole_in(behind, v, costs, remaining, s)
}

// A live job of a task with these ticks left and this work.
pub fn job_fits(
    a: Task,
    costs: &[u32; 256],
    ticks: u32,
    work: u64,
    remaining: &[u32; 1024],
    s: usize,
) -> bool
    ensures { result ≡ job_fits a costs.now ticks work remaining.now s }
{
    if ticks < 1 || ticks >= a.d || work == 0 || work != work_left(remaining, s) || s >= 64 {
        return false;
    }
    within_cost(costs, remaining, s) && whole_behind(a, costs, remaining, s)
}
