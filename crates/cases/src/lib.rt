// For the programs that run recorded cases: how many they run, the file of a case, and the checksum of what comes of it.
#![tactic(auto)]

mod checksum;
mod file;

pub use checksum::{Checksum, checksum_of};
pub use file::CaseFile;

// The most cases of a run: a loop must be shown to end.
pub const MOST: u32 = 1_000_000;
