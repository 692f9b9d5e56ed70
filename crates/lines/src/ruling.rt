// The judge's line: what a ruling says.
ghost use Rattle.std.specs.Prelude.{◌≡◌, [], ◌++◌};
ghost use Rattle.graph.specs.Words.{pick};
ghost use Rattle.text.specs.Text.{text, newline, decimal};
ghost use Rattle.text.specs.Page.{Adds};
ghost use Rattle.lines.specs.Lines.{line_of};
ghost use Rattle.lines.specs.Rulings.{legal_line, ruling_line};

use crate::Line;
use journal::Ruling;
use text::Page;

// Whether the last row missed: a value that is shown, no switch on a step.
fn missed(page: &mut Line, last: bool)
    ensures { Adds page.old page.new (pick last (text ", the last missed") []) }
{
    if last {
        page.words(b", the last missed");
    }
}

// A journal whose rows are all legal.
fn legal_line(page: &mut Line, r: Ruling)
    ensures { Adds page.old page.new (legal_line r) }
{
    page.labelled(b"legal ", r.rows as u64);
    page.words(b" rows");
    missed(page, r.missed);
    page.end_line();
}

// A refusal's number and where it is.
fn pointed(page: &mut Line, label: &[u8], number: u8, at: &[u8], place: usize)
    ensures { Adds page.old page.new (label.now ++ decimal number ++ at.now ++ decimal place ++ newline) }
{
    page.labelled(label, u64::from(number));
    page.labelled(at, place as u64);
    page.end_line();
}

// The line of a ruling onto a page.
fn line(page: &mut Line, r: Ruling)
    ensures { Adds page.old page.new (ruling_line r) }
{
    if r.number == 0 {
        legal_line(page, r);
    } else if r.number <= 8 {
        pointed(page, b"unreadable ", r.number, b" at ", r.place);
    } else {
        pointed(page, b"refuse ", r.number, b" at row ", r.row);
    }
}

// The line of a ruling.
pub fn ruling_line(r: Ruling) -> Line
    ensures { result ≡ line_of (ruling_line r) }
{
    let mut page = Page::new();
    line(&mut page, r);
    page
}
