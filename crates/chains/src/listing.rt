// The longest chain by name (document 02, M-102): of the chains with the largest sum the one whose list is first. The definitions are in specs/Chains.antt.
// Whether there is a cycle is asked once, in `longest_chain`: a type for a graph without one would be made there and taken apart in the three
// functions below it.
ghost use Rattle.std.specs.Prelude.{◌≡◌, true, false, ℕ, ◌<◌, get_or, MatchOption};
ghost use Rattle.graph.specs.Words.{pick, bit, largest};
ghost use Rattle.graph.specs.Graph.{edge, acyclic, longest_from};
ghost use Rattle.chains.specs.Chains.{first_with, longest_chain};

use crate::ChainFound;
use graph::set::Members;

// The largest of a set's sums; 0 if the set is empty.
fn largest_of(sums: &[u64; 16], set: u16) -> u64
    ensures { result ≡ largest 16 (λ w. pick (bit set w) (get_or sums.now w 0) 0) }
{
    let mut best = 0u64;
    for w in Members::from(set) {
        best = best.max(sums[w]);
    }
    best
}

// The highest of a set that leads to none of it. Where there is no cycle only the empty set has none.
fn free_of(succ: &[u16; 16], left: u16) -> Option<usize>
    requires { acyclic succ.now ≡ true }
    ensures { MatchOption result (left ≡ 0) (λ u. (u < 16) × (bit left u ≡ true) × ((w : ℕ) → edge succ.now u w ≡ true → bit left w ≡ false)) }
{
    for u in (0..16).rev() {
        if (left >> u) % 2 == 1 && succ[u] & left == 0 {
            return Some(u);
        }
    }
    None
}

// The largest sum along a chain from each vertex: one is reckoned when all that it leads to are.
fn sums_from(succ: &[u16; 16], times: &[u32; 16]) -> [u64; 16]
    requires { acyclic succ.now ≡ true }
    ensures { result ≡ longest_from 16 (edge succ.now) (λ u. get_or times.now u 0) 16 }
{
    let mut sums = [0; 16];
    let mut left = u16::MAX;
    // The next vertex depends on the one before.
    while let Some(u) = free_of(succ, left) {
        sums[u] = largest_of(&sums, succ[u]) + u64::from(times[u]);
        left &= !(1 << u);
    }
    sums
}

// The lowest of a set that has just what is left for its sum.
fn first_with(sums: &[u64; 16], set: u16, left: u64) -> Option<usize>
    ensures { MatchOption result (255 ≡ first_with 16 sums.now (bit set) left) (λ w. w ≡ first_with 16 sums.now (bit set) left) }
{
    for w in Members::from(set) {
        if sums[w] == left {
            return Some(w);
        }
    }
    None
}

// Where there is no cycle: the lowest vertex with the whole sum, then the lowest successor with just what is left, until nothing is.
fn first_chain(succ: &[u16; 16], times: &[u32; 16]) -> ChainFound
    requires { acyclic succ.now ≡ true }
    ensures { result ≡ longest_chain succ.now times.now }
{
    let sums = sums_from(succ, times);
    let sum = largest_of(&sums, u16::MAX);
    let mut vertices = [255; 16];
    let mut count = 0;
    let mut set = u16::MAX;
    let mut left = sum;
    // The next vertex depends on the one before.
    while let Some(u) = first_with(&sums, set, left) {
        vertices[count] = u as u8;
        count += 1;
        left -= u64::from(times[u]);
        if left == 0 {
            break;
        }
        set = succ[u];
    }
    ChainFound {
        sum,
        count: count as u8,
        vertices,
    }
}

// The longest chain and its sum; no vertex and 0 where there is a cycle.
pub fn longest_chain(succ: [u16; 16], times: [u32; 16]) -> ChainFound
    ensures { result ≡ longest_chain succ times }
{
    if graph::is_acyclic(succ) {
        first_chain(&succ, &times)
    } else {
        ChainFound {
            sum: 0,
            count: 0,
            vertices: [255; 16],
        }
    }
}
