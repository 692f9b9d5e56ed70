// The figures of one task: vol, len and margin. Document 01, "The verdict".
ghost use Rattle.std.specs.Prelude.{◌≡◌, ◌+◌, ◌*◌, ◌-◌, ◌^◌, ◌<◌, min, get_or, pos, ◌-ℤ◌};
ghost use Rattle.graph.specs.Words.{sum, row};
ghost use Rattle.graph.specs.Graph.{longest_of};

// 2 ^ 53, which no figure of a table reaches: with it no product of a margin wraps, whatever is asked.
const MOST: u64 = 9_007_199_254_740_992;

// Task i's own sixteen costs: zeros where there is no such task.
pub fn own_costs(costs: &[u32; 256], i: usize) -> [u32; 16]
    ensures { result ≡ row 16 (λ u. get_or costs.now (16 * i + u) 0) }
{
    let mut own = [0u32; 16];
    if i < 16 {
        own.copy_from_slice(&costs[16 * i..16 * i + 16]);
    }
    own
}

// The sum of sixteen costs. A `for`: `own.iter().map(|c| u64::from(*c)).sum()` was tried, and without a `requires` the proof does not have the row's
// length, with which the sum is bounded.
pub fn total_of(own: [u32; 16]) -> u64
    ensures { result ≡ sum 16 (λ u. get_or own u 0) }
{
    let mut total: u64 = 0;
    for cost in own {
        total += u64::from(cost);
    }
    total
}

// The longest chain of task i, whose successors are given.
pub fn len_of(costs: &[u32; 256], i: usize, succ: [u16; 16]) -> u64
    ensures { result ≡ longest_of succ (row 16 (λ u. get_or costs.now (16 * i + u) 0)) }
{
    graph::longest(succ, own_costs(costs, i))
}

// a less b, a signed number.
fn less(a: u64, b: u64) -> i64
    requires { (a < 2 ^ 62) × (b < 2 ^ 62) }
    ensures { result ≡ pos a -ℤ pos b }
{
    (a as i64) - (b as i64)
}

// m times d, less (m minus 1) times len, less due: one signed subtraction.
pub fn margin_from(m: u8, d: u32, len: u64, due: u64) -> i64
    ensures { result ≡ pos (m * d) -ℤ pos ((m - 1) * min len (2 ^ 53) + min due (2 ^ 53)) }
{
    let fewer = u64::from(m.saturating_sub(1));
    let chain = len.min(MOST);
    let work = due.min(MOST);
    less(u64::from(m) * u64::from(d), fewer * chain + work)
}
