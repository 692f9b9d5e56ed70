// The sharp report: a table on standard input, its report by the sharp verdict on standard output. Document 02, M-107.
#![tactic(auto)]

use std::io;
use streams::FILE_ROOM;

// Of a longer file the first 5,061 bytes have the same report (`sharp_report_prefix`, the crate reports).
fn main(rt: HostRuntime) -> io::Result<()> {
    let mut file = [0; FILE_ROOM];
    let n = streams::read_full(&mut rt.stdin(), &mut file)?;
    rt.write_all(reports::sharp_report_of(&file[..n]).text())
}
