// The longest chain by name and the tails: document 02, M-102 and M-107. The definitions are in specs/Chains.antt and specs/Tails.antt.
#![tactic(auto)]

mod descending;
mod listing;

pub use descending::tails_of;
pub use listing::longest_chain;

// A longest chain: its sum, and its vertices in path order; places from `count` on are 255. A row of fixed length and no slice or vector: it is
// returned by value, and without a heap.
#[derive(Clone, Copy)]
pub struct ChainFound {
    pub sum: u64,
    pub count: u8,
    pub vertices: [u8; 16],
}
