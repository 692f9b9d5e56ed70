// Runs recorded cases through the judge. Input, a case: the length (two bytes, little-endian) and the bytes of a table's file, or
// length 0 for the file of the case before; the length (two bytes) and the bytes of a journal. Output, a line a case: number, place,
// row, rows, and 1 if the last row missed or 0. The second program wrote both the cases and what is expected.
#![tactic(auto)]

use cases::CaseFile;
use std::io;
use std::io::Read;
use streams::SIZED_ROOM;

// The line of a file and a journal.
fn answer(rt: &impl Print, file: &[u8], rows: &[u8]) -> io::Result<()> {
    let r = journal::judge(file, rows);
    println!(rt;
        "{} {} {} {} {}",
        r.number,
        r.place,
        r.row,
        r.rows,
        u8::from(r.missed)
    )
}

// One case; false where the input ends.
fn run_case(
    rt: &impl Print,
    input: &mut impl Read,
    file: &mut CaseFile,
    rows: &mut [u8],
) -> io::Result<bool> {
    if !file.read_next(input)? {
        return Ok(false);
    }
    let n = streams::read_sized(input, rows)?.unwrap_or(0);
    answer(rt, file.bytes(), &rows[..n])?;
    Ok(true)
}

// The buffers are this program's own, so each has its `main`.
fn main(rt: HostRuntime) -> io::Result<()> {
    let mut input = rt.stdin();
    let mut file = CaseFile::new();
    let mut rows = [0; SIZED_ROOM];
    for _ in 0..cases::MOST {
        if !run_case(&rt, &mut input, &mut file, &mut rows)? {
            break;
        }
    }
    Ok(())
}
