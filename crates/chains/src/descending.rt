// The tail of each vertex (document 02, M-107): the longest chain after it, itself left out, by depth-first descent through its successors.
// The definition is in specs/Tails.antt; what a descent asks and leaves behind in specs/Descent.antt.
ghost use Rattle.std.specs.Prelude.{◌≡◌, ◌<◌, ◌≤◌, length};
ghost use Rattle.chains.specs.Tails.{tails_of};
ghost use Rattle.chains.specs.Descent.{Sound, Known, Visited};

use graph::set::Members;

// Visits u and what it leads to, and writes their tails; `left` are those not visited yet, and the result is what is left of them. One that
// was visited is not visited again, so that there are as many calls as edges and starts.
fn descend(succ: &[u16; 16], times: &[u32; 16], u: usize, left: u16, tails: &mut [u64; 16]) -> u16
    requires { (u < 16) × Sound succ.now times.now × Known succ.now times.now u left tails.old }
    ensures { (result ≤ left) × Visited succ.now times.now u left tails.old result tails.new }
{
    if (left >> u) % 2 == 0 {
        return left;
    }
    let mut unseen = left & !(1 << u);
    let mut best = 0u64;
    for w in Members::from(succ[u]) {
        unseen = descend(succ, times, w, unseen, tails);
        best = best.max(u64::from(times[w]) + tails[w]);
    }
    tails[u] = best;
    unseen
}

// The tail of each vertex; 0 where there is a cycle.
pub fn tails_of(succ: [u16; 16], times: [u32; 16]) -> [u64; 16]
    ensures { result ≡ tails_of succ times }
{
    let mut tails = [0; 16];
    if !graph::is_acyclic(succ) {
        return tails;
    }
    let mut left = u16::MAX;
    for u in 0..16 {
        left = descend(&succ, &times, u, left, &mut tails);
    }
    tails
}
