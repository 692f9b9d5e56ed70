// A quick yes or no on a file: document 02, M-105. The definition is in specs/.
#![tactic(auto)]

mod answering;
mod sums;

pub use answering::quick;
