// Runs recorded cases through the writer. Input, a case: the length (two bytes, little-endian) and the bytes of a file, whose table
// is the base, or length 0 for the base before; a count of changes (a byte), each a field's code (two bytes) and its value (four);
// and the buffer's length (two bytes). Output, a line a case: number, place, and a checksum of the buffer, which holds A5 before.
// The second program wrote both the cases and what is expected.
#![tactic(auto)]

use cases::CaseFile;
use std::io;
use std::io::Read;
use streams::SIZED_ROOM;
use table::Table;

// A table with one field changed: m, n, a task's v, d or t, a vertex's successors, or a cost, by its code.
fn with_field(mut t: Table, code: u16, value: u32) -> Table {
    let code = usize::from(code);
    let byte = (value % 256) as u8;
    match code {
        0 => t.m = byte,
        1 => t.n = byte,
        16..=31 => t.tasks[code - 16].v = byte,
        32..=47 => t.tasks[code - 32].d = value,
        48..=63 => t.tasks[code - 48].t = value,
        256..=511 => t.tasks[(code - 256) / 16].succ[code % 16] = (value % 65536) as u16,
        512..=767 => t.costs[code - 512] = value,
        _ => {}
    }
    t
}

// A table with the changes that come next in the input.
fn changed(input: &mut impl Read, base: Table, count: u8) -> io::Result<Table> {
    let mut t = base;
    for _ in 0..count {
        let code = u16::from_le_bytes(streams::next_padded(input)?);
        let value = u32::from_le_bytes(streams::next_padded(input)?);
        t = with_field(t, code, value);
    }
    Ok(t)
}

// The line of a case: the table is written into a buffer.
fn answer(rt: &impl Print, t: Table, buffer: &mut [u8]) -> io::Result<()> {
    buffer.fill(0xA5);
    let w = writer::write(t, buffer);
    let number = w.number();
    let place = w.place();
    let sum = cases::checksum_of(buffer);
    println!(rt; "{number} {place} {sum}")
}

// One case; false where the input ends.
fn run_case(
    rt: &impl Print,
    input: &mut impl Read,
    file: &mut CaseFile,
    buffer: &mut [u8; SIZED_ROOM],
) -> io::Result<bool> {
    if !file.read_next(input)? {
        return Ok(false);
    }
    let base = table::read(file.bytes()).table;
    let count = u8::from_le_bytes(streams::next_padded(input)?);
    let t = changed(input, base, count)?;
    let n = u16::from_le_bytes(streams::next_padded(input)?);
    answer(rt, t, &mut buffer[..usize::from(n)])?;
    Ok(true)
}

// The buffers are this program's own, so each has its `main`.
fn main(rt: HostRuntime) -> io::Result<()> {
    let mut input = rt.stdin();
    let mut file = CaseFile::new();
    let mut buffer = [0; SIZED_ROOM];
    for _ in 0..cases::MOST {
        if !run_case(&rt, &mut input, &mut file, &mut buffer)? {
            break;
        }
    }
    Ok(())
}
