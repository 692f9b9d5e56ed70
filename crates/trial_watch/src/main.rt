// Runs recorded inputs of the watch program. Input, a run: its length (two bytes, little-endian) and that many bytes, which are an
// input of the watch program. Output, a line a run: how many lines are shown of it, and a checksum of them. The second program wrote
// both the runs and what is expected.
#![tactic(auto)]

use cases::Checksum;
use machine::State;
use std::hash::Hasher;
use std::io::Read;
use std::{array, io};
use streams::SIZED_ROOM;

// The first N bytes of an input, which are 0 where it has ended, and what comes behind them.
fn first<const N: usize>(input: &[u8]) -> ([u8; N], &[u8]) {
    let bytes = array::from_fn(|i| input.get(i).copied().unwrap_or(0));
    (bytes, &input[N.min(input.len())..])
}

// The ticks of a run, a release set each, whose lines go into a checksum.
fn add_ticks(sum: &mut Checksum, table: &[u8], opened: State, releases: &[[u8; 2]]) {
    let mut state = opened;
    for set in releases {
        let shown = lines::show_tick(table, state, lines::set_of(*set));
        sum.write(shown.line.text());
        state = shown.state;
    }
}

// The line of a run.
fn answer(rt: &impl Print, input: &[u8]) -> io::Result<()> {
    let (length, rest) = first(input);
    let length = usize::from(lines::set_of(length));
    let (table, rest) = rest.split_at(length.min(rest.len()));
    let (clock, rest) = first(rest);
    let (releases, _) = rest.as_chunks::<2>();
    let opening = lines::show_opening(table, lines::clock_of(clock));
    let mut sum = Checksum::new();
    sum.write(opening.line.text());
    let mut count = 1;
    if opening.number == 0 {
        add_ticks(&mut sum, table, opening.state, releases);
        count += releases.len();
    }
    println!(rt; "{count} {}", sum.finish())
}

// One run; false where the input ends. As in trial_read, which says why there are two.
fn run_case(rt: &impl Print, input: &mut impl Read, buf: &mut [u8]) -> io::Result<bool> {
    let Some(head) = streams::next_bytes(input)? else {
        return Ok(false);
    };
    let n = streams::read_front(input, buf, usize::from(lines::set_of(head)))?;
    answer(rt, &buf[..n])?;
    Ok(true)
}

fn main(rt: HostRuntime) -> io::Result<()> {
    let mut input = rt.stdin();
    let mut buf = [0; SIZED_ROOM];
    for _ in 0..cases::MOST {
        if !run_case(&rt, &mut input, &mut buf)? {
            break;
        }
    }
    Ok(())
}
