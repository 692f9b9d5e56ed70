// A table's run, step by step: each step shows a line and hands on the state.
ghost use Rattle.std.specs.Prelude.{◌≡◌};
ghost use Rattle.lines.specs.Watching.{number2, number4, shown_opening, shown_tick};

use crate::{Shown, opening, ticking};
use machine::State;

// A table's length or a release set: two bytes, the lower first. As clock_of: a call of std's each, of two sizes, under the definitions by which
// `watched` takes an input apart; the programs watch, judge and trial_watch read by them.
pub fn set_of(b: [u8; 2]) -> u16
    ensures { result ≡ number2 b }
{
    u16::from_le_bytes(b)
}

// A clock: four bytes, the lowest first.
pub fn clock_of(b: [u8; 4]) -> u32
    ensures { result ≡ number4 b }
{
    u32::from_le_bytes(b)
}

// Opening.
pub fn show_opening(bytes: &[u8], clock: u32) -> Shown
    ensures { result ≡ shown_opening bytes.now clock }
{
    let line = opening::open_line(bytes, clock);
    let opened = machine::open(bytes, clock);
    Shown {
        line,
        number: opened.reply.number,
        state: opened.state,
    }
}

// A tick.
pub fn show_tick(bytes: &[u8], st: State, releases: u16) -> Shown
    ensures { result ≡ shown_tick bytes.now st releases }
{
    let ticked = st.tick(bytes, releases);
    let answer = ticked.answer;
    let state = ticked.state;
    let live = machine::live_slots(state);
    Shown {
        line: ticking::tick_line(st.clock, releases, answer, live, state.work),
        number: answer.reply.number,
        state,
    }
}
