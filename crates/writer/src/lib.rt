// Writing a table file: document 01, "Numbers for reading and writing". What writing means is in table's specs/Writing.antt.
#![tactic(auto)]

mod writing;

pub use writing::write;
