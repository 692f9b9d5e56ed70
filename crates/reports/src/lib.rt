// The report on a file: its text. The definitions are in specs/, what they mean in proofs/.
#![tactic(auto)]

mod printing;
mod reporting;

pub use reporting::{report_into, report_of, sharp_report_into, sharp_report_of};

// A report's text, at the front of its bytes, and how long it is.
pub type Report = text::Page<2048>;
