// The sharp due work in closed form: no walk over the jobs of a task. Document 02, M-107.
// The bounds on d and t that its functions ask for keep sums and products from wrapping.
ghost use Rattle.std.specs.Prelude.{◌≡◌, ℕ, ◌+◌, ◌*◌, ◌-◌, ◌≤◌, ◌<◌, get_or};
ghost use Rattle.sharp.specs.Closed.{ramp, part, asked_from};

// The sum of y - h times t over the h with h times t below y.
fn ramp(y: u32, t: u32) -> u64
    requires { (y ≤ 1000000) × (1 ≤ t) × (t ≤ 1000000) }
    ensures { result ≡ ramp y t }
{
    let r = u64::from(y.div_ceil(t));
    r * u64::from(y) - u64::from(t) * ((r * r - r) / 2)
}

// The sum of the smaller of c and y - h times t over these h.
fn part(c: u32, t: u32, y: u32) -> u64
    requires { (c ≤ 1000000) × (y ≤ 1000000) × (1 ≤ t) × (t ≤ 1000000) }
    ensures { (result ≡ part c t y) × (result ≤ 1000000000000) }
{
    if y < c {
        return ramp(y, t);
    }
    let over = y - c;
    let full = u64::from(over / t + 1) * u64::from(c);
    let rest = over % t + c;
    if rest <= t {
        return full;
    }
    full + ramp(rest - t, t)
}

// What v vertices ask for within d ticks, their task having period t; their costs and tails lie from the place `at` on.
pub(crate) fn asked_from(
    costs: &[u32; 256],
    tails: &[u32; 256],
    at: usize,
    v: usize,
    d: u32,
    t: u32,
) -> u64
    requires { (at + v ≤ 256) × (v ≤ 16) × (d ≤ 1000000) × (1 ≤ t) × (t ≤ 1000000) × ((u : ℕ) → u < v → get_or costs.now (at + u) 0 ≤ 1000000) }
    ensures { (result ≡ asked_from costs.now tails.now at v d t) × (result ≤ 16000000000000) }
{
    let mut total: u64 = 0;
    for u in 0..v {
        let y = d.saturating_sub(tails[at + u]);
        total += part(costs[at + u], t, y);
    }
    total
}
