// The sharper verdict on a file, by local deadlines: document 02, M-107. The definitions are in specs/, what they mean in proofs/.
#![tactic(auto)]

mod closed;
mod finding;
mod gathering;
mod judging;
mod putting;

pub use finding::sharp_findings_of;
pub use judging::sharp_of;
