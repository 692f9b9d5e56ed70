// The judge's answers. The definitions are in specs/, what they mean in proofs/.
#![tactic(auto)]

mod faults;
mod fields;
mod lists;
mod walk;

use machine::State;
pub use walk::{judge, judge_piece, rule, unreadable};

// The ruling on a journal, as document 02 has it: number 0, the number of rows, and whether the last one missed; or the refusal's number and row, for
// reading's numbers the place and row 0.
#[derive(Clone, Copy)]
pub struct Ruling {
    pub number: u8,
    pub place: usize,
    pub row: usize,
    pub rows: usize,
    pub missed: bool,
}

// How far a journal is judged: `rows` rows are, the next one begins at place `next`, and the machine stands at `state`. A number
// other than 0 says that this next row is refused with it. The number stands beside: the definitions of `judge_piece` and `rule`, and
// their theorems, speak of these fields.
#[derive(Clone, Copy)]
pub struct Progress {
    pub number: u8,
    pub next: usize,
    pub rows: usize,
    pub state: State,
}
