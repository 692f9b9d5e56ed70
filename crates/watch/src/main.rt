// The watch program: a table, a clock and release sets on standard input, a line for opening and one for each tick on standard
// output. It holds the table and one line.
#![tactic(auto)]

use machine::State;
use std::io;
use std::io::Read;
use streams::FILE_ROOM;

// Tick after tick, as long as the input has release sets; their number is bounded because a loop must be shown to end.
fn run(rt: &impl Print, input: &mut impl Read, table: &[u8], opened: State) -> io::Result<()> {
    let mut state = opened;
    for _ in 0..u64::MAX {
        let Some(releases) = streams::next_bytes(input)? else {
            break;
        };
        let shown = lines::show_tick(table, state, lines::set_of(releases));
        rt.write_all(shown.line.text())?;
        state = shown.state;
    }
    Ok(())
}

// Opening, and the ticks if it was not refused.
fn watch(rt: &impl Print, input: &mut impl Read, table: &[u8], clock: u32) -> io::Result<()> {
    let shown = lines::show_opening(table, clock);
    rt.write_all(shown.line.text())?;
    if shown.number == 0 {
        run(rt, input, table, shown.state)
    } else {
        Ok(())
    }
}

// The table's bytes, as many as there are of its length, of a longer table the first 5,061, which give the same lines (`run_prefix`,
// the crate lines); then the clock. Missing bytes of either number stay 0. What a longer table has behind its room is not passed over: the table
// is refused, and nothing of what follows is shown.
fn main(rt: HostRuntime) -> io::Result<()> {
    let mut input = rt.stdin();
    let mut table = [0; FILE_ROOM];
    let length = lines::set_of(streams::next_padded(&mut input)?);
    let n = streams::read_front(&mut input, &mut table, usize::from(length))?;
    let clock = lines::clock_of(streams::next_padded(&mut input)?);
    watch(&rt, &mut input, &table[..n], clock)
}
