// The quick report: a table on standard input, `yes` or `no` on standard output. Document 02, M-105.
#![tactic(auto)]

use std::io;
use streams::FILE_ROOM;

// Of a longer file the first 5,061 bytes have the same answer (`quick_prefix`, the crate quick).
fn main(rt: HostRuntime) -> io::Result<()> {
    let mut file = [0; FILE_ROOM];
    let n = streams::read_full(&mut rt.stdin(), &mut file)?;
    let answer = if quick::quick(&file[..n]) {
        "yes"
    } else {
        "no"
    };
    println!(rt; "{answer}")
}
