// Runs recorded cases through the verdict and the report. Input, a case: the length (two bytes, little-endian) and the bytes of a
// file, or length 0 for the file of the case before, as it stood then; and a count of changes (a byte), each a place (two bytes) and
// the byte that stands there now. Output, two lines a case, of the verdict and of the sharp verdict: number, place, task, margin, how many
// vertices the chain has and the checksum of its sixteen places, the report's length and its checksum.
// The second program wrote both the cases and what is expected.
#![tactic(auto)]

use cases::CaseFile;
use std::io;
use std::io::Read;
use streams::SIZED_ROOM;
use verdict::Verdict;

// Changes the bytes that come next in the input.
fn change(input: &mut impl Read, file: &mut CaseFile, count: u8) -> io::Result<()> {
    for _ in 0..count {
        let at = u16::from_le_bytes(streams::next_padded(input)?);
        let b = u8::from_le_bytes(streams::next_padded(input)?);
        file.put(usize::from(at), b);
    }
    Ok(())
}

// A verdict's line; its report has some length, and stands at a page's front.
fn answer(rt: &impl Print, v: Verdict, len: usize, page: &[u8]) -> io::Result<()> {
    let chain = cases::checksum_of(&v.chain);
    print!(rt;
        "{} {} {} {} {} {chain}",
        v.number, v.place, v.task, v.margin, v.count
    )?;
    let report = cases::checksum_of(&page[..len.min(page.len())]);
    println!(rt; " {len} {report}")
}

// Both lines of a case.
fn answer_file(rt: &impl Print, file: &[u8], page: &mut [u8]) -> io::Result<()> {
    let len = reports::report_into(file, page);
    answer(rt, verdict::verdict_of(file), len, page)?;
    let sharp_len = reports::sharp_report_into(file, page);
    answer(rt, sharp::sharp_of(file), sharp_len, page)
}

// One case; false where the input ends.
fn run_case(
    rt: &impl Print,
    input: &mut impl Read,
    file: &mut CaseFile,
    page: &mut [u8],
) -> io::Result<bool> {
    if !file.read_next(input)? {
        return Ok(false);
    }
    let count = u8::from_le_bytes(streams::next_padded(input)?);
    change(input, file, count)?;
    answer_file(rt, file.bytes(), page)?;
    Ok(true)
}

// The buffers are this program's own, so each has its `main`.
fn main(rt: HostRuntime) -> io::Result<()> {
    let mut input = rt.stdin();
    let mut file = CaseFile::new();
    let mut page = [0; SIZED_ROOM];
    for _ in 0..cases::MOST {
        if !run_case(&rt, &mut input, &mut file, &mut page)? {
            break;
        }
    }
    Ok(())
}
