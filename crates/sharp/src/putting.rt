// A task's tails: the longest chain that they give, and their places in the row of all tails.
ghost use Rattle.std.specs.Prelude.{◌≡◌, ℕ, ◌+◌, ◌*◌, ◌≤◌, ◌<◌, length, get_or};
ghost use Rattle.graph.specs.Words.{largest};

// The largest of cost and tail together.
pub(crate) fn longest_of(own: [u32; 16], tails: [u64; 16]) -> u64
    requires { (u : ℕ) → get_or tails u 0 ≤ 16000000 }
    ensures { result ≡ largest 16 (λ u. get_or own u 0 + get_or tails u 0) }
{
    let mut best: u64 = 0;
    for u in 0..16 {
        best = best.max(u64::from(own[u]) + tails[u]);
    }
    best
}

// A task's sixteen tails at its sixteen places of the row.
pub(crate) fn put_tails(row: &mut [u32; 256], i: usize, tails: [u64; 16])
    requires { (i < 16) × (length row.old ≡ 256) × ((u : ℕ) → get_or tails u 0 ≤ 16000000) }
    ensures { (length row.new ≡ 256) × ((u : ℕ) → u < 16 → get_or row.new (16 * i + u) 0 ≡ get_or tails u 0) × ((j : ℕ) → j < 16 * i → get_or row.new j 0 ≡ get_or row.old j 0) }
{
    for u in 0..16 {
        row[16 * i + u] = tails[u] as u32;
    }
}
