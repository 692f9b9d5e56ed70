// The first line: what opening says of a table.
ghost use Rattle.std.specs.Prelude.{◌≡◌};
ghost use Rattle.text.specs.Page.{Adds};
ghost use Rattle.lines.specs.Lines.{refuse_line, opened_line, open_line, line_of};

use crate::Line;
use table::{Outcome, Table};
use text::Page;

// A table that reading refuses. As `bad_line` of reports, with another word: the two share crates of text and table alone, and neither of
// those knows the other.
fn refuse_line(page: &mut Line, o: Outcome)
    ensures { Adds page.old page.new (refuse_line o) }
{
    page.labelled(b"refuse ", u64::from(o.number()));
    page.labelled(b" at ", o.place() as u64);
    page.end_line();
}

// A table that is read.
fn opened_line(page: &mut Line, clock: u32, t: Table)
    ensures { Adds page.old page.new (opened_line clock t) }
{
    page.labelled(b"open ", u64::from(clock));
    page.labelled(b" processors ", u64::from(t.m));
    page.labelled(b" tasks ", u64::from(t.n));
    page.end_line();
}

// Either of them.
fn first_line(page: &mut Line, bytes: &[u8], clock: u32)
    ensures { Adds page.old page.new (open_line bytes.now clock) }
{
    let l = table::read(bytes);
    let o = l.outcome;
    let Outcome::Read = o else {
        return refuse_line(page, o);
    };
    opened_line(page, clock, l.table);
}

// The line of opening a table at a clock.
pub fn open_line(bytes: &[u8], clock: u32) -> Line
    ensures { result ≡ line_of (open_line bytes.now clock) }
{
    let mut page = Page::new();
    first_line(&mut page, bytes, clock);
    page
}
