// The judge program: a table and a panel's journal on standard input, one line on standard output. Document 02, M-100. It holds the
// table, and 8,192 bytes of the journal at a time.
#![tactic(auto)]

use journal::{Progress, Ruling};
use machine::Phase;
use std::io;
use std::io::Read;
use streams::FILE_ROOM;
use table::{Outcome, Table};

// Room for a piece of the journal.
const PAGE: usize = 8192;

// The ruling on the journal that follows in the input, piece after piece; what a piece leaves unjudged stands at the front of the
// next one. The count of pieces is bounded because a loop must be shown to end; a journal has fewer than 2^64 rows.
fn judge_input(input: &mut impl Read, t: Table) -> io::Result<Ruling> {
    let mut progress = Progress {
        number: 0,
        next: 0,
        rows: 0,
        state: machine::zeros(0, Phase::Running),
    };
    let mut page = [0; PAGE];
    let mut held = 0;
    for _ in 0..u64::MAX {
        let n = held + streams::read_full(input, &mut page[held..])?;
        let last = n < PAGE;
        // 769 bytes or more stand behind where a piece's last row may begin, unless the journal ends there. So the piece alone
        // decides, whatever follows (`InPieces`, the crate journal).
        let end = if last { n } else { n - 769 };
        let piece = journal::judge_piece(t, &page[..n], end, progress.state);
        progress = Progress {
            rows: progress.rows.wrapping_add(piece.rows),
            ..piece
        };
        if last || piece.number != 0 {
            break;
        }
        let from = piece.next.min(n);
        page.copy_within(from..n, 0);
        held = n - from;
    }
    Ok(journal::rule(progress))
}

// The ruling on a table's bytes and the journal that follows in the input. The table is read once.
fn ruling_on(input: &mut impl Read, file: &[u8]) -> io::Result<Ruling> {
    let l = table::read(file);
    let o = l.outcome;
    let Outcome::Read = o else {
        return Ok(journal::unreadable(o));
    };
    judge_input(input, l.table)
}

// The table's bytes, as many as there are of its length, of a longer table the first 5,061, which are read the same (`read_prefix`,
// the crate table). What a longer table has behind its room is not passed over: the table is refused, and nothing of what follows is
// judged.
fn main(rt: HostRuntime) -> io::Result<()> {
    let mut input = rt.stdin();
    let mut table = [0; FILE_ROOM];
    let length = lines::set_of(streams::next_padded(&mut input)?);
    let n = streams::read_front(&mut input, &mut table, usize::from(length))?;
    let ruling = ruling_on(&mut input, &table[..n])?;
    rt.write_all(lines::ruling_line(ruling).text())
}
