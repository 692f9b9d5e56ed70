// The report program: a table on standard input, its report on standard output. Document 01, "Examples by hand".
#![tactic(auto)]

use std::io;
use streams::FILE_ROOM;

// Of a longer file the first 5,061 bytes have the same report (`report_prefix`, the crate reports). As sharp_report, about another report:
// one function for both would be a crate more.
fn main(rt: HostRuntime) -> io::Result<()> {
    let mut file = [0; FILE_ROOM];
    let n = streams::read_full(&mut rt.stdin(), &mut file)?;
    rt.write_all(reports::report_of(&file[..n]).text())
}
