// Runs recorded cases through the reader. Input, a case: its length (two bytes, little-endian) and that many bytes. Output, a
// line a case: number, place, and a checksum of the table. The second program wrote both the cases and what is expected.
#![tactic(auto)]

ghost use Rattle.std.specs.Prelude.{◌<◌};

use cases::Checksum;
use std::hash::Hasher;
use std::io;
use std::io::Read;
use streams::SIZED_ROOM;
use table::{Table, Task};

// A task's numbers more in a checksum.
fn add_task(sum: &mut Checksum, t: Task) {
    sum.write_u8(t.v);
    sum.write_u32(t.d);
    sum.write_u32(t.t);
    for successors in t.succ {
        sum.write_u16(successors);
    }
}

// A checksum's number, of 32 bits: a function, since a loop does not say of what it leaves how large it is.
fn number_of(sum: Checksum) -> u64
    ensures { result < 4294967296 }
{
    sum.finish()
}

// The checksum of a table, of 32 bits.
fn sum_of(t: Table) -> u64
    ensures { result < 4294967296 }
{
    let mut sum = Checksum::new();
    sum.write_u8(t.m);
    sum.write_u8(t.n);
    for task in t.tasks {
        add_task(&mut sum, task);
    }
    for cost in t.costs {
        sum.write_u32(cost);
    }
    number_of(sum)
}

// The line of a case.
fn answer(rt: &impl Print, file: &[u8]) -> io::Result<()> {
    let loaded = table::read(file);
    let outcome = loaded.outcome;
    let number = outcome.number();
    let place = outcome.place();
    let sum = sum_of(loaded.table);
    println!(rt; "{number} {place} {sum}")
}

// One case; false where the input ends. As in trial_watch, about another answer: one function for both would take it as a closure, with what it
// asks of each call, and be longer than the two.
fn run_case(rt: &impl Print, input: &mut impl Read, buf: &mut [u8]) -> io::Result<bool> {
    let Some(n) = streams::read_sized(input, buf)? else {
        return Ok(false);
    };
    answer(rt, &buf[..n])?;
    Ok(true)
}

fn main(rt: HostRuntime) -> io::Result<()> {
    let mut input = rt.stdin();
    let mut buf = [0; SIZED_ROOM];
    for _ in 0..cases::MOST {
        if !run_case(&rt, &mut input, &mut buf)? {
            break;
        }
    }
    Ok(())
}
