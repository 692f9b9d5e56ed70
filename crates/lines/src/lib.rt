// The lines that show a table run, tick by tick, and the judge's line. The definitions are in specs/, what they mean in proofs/.
#![tactic(auto)]

mod opening;
mod parts;
mod ruling;
mod showing;
mod ticking;

use machine::State;
pub use opening::open_line;
pub use ruling::ruling_line;
pub use showing::{clock_of, set_of, show_opening, show_tick};
pub use ticking::tick_line;

// A line's text, at the front of its bytes, and how long it is.
pub type Line = text::Page<2048>;

// A step: its line, the answer's number, which is document 01's, and the state to go on from.
#[derive(Clone, Copy)]
pub struct Shown {
    pub line: Line,
    pub number: u8,
    pub state: State,
}
