// The lines of a report onto a page, from what was found of a file: document 01, "Examples by hand"; document 02, M-102, for the chain.
// The page's size is a parameter, since a caller's own buffer is filled from a small page: fixed memory.
// Findings is a public type of verdict, so Printable stays a clause: an invariant would ask more of its callers.
ghost use Rattle.std.specs.Prelude.{◌≡◌, ◌++◌, ◌≤◌, eqb};
ghost use Rattle.graph.specs.Words.{pick, in_order};
ghost use Rattle.text.specs.Text.{text, newline, decimal, signed};
ghost use Rattle.text.specs.Page.{Adds};
ghost use Rattle.table.specs.declared.Outcome.TheVariants.{Read};
ghost use Rattle.reports.specs.Report.{head_line, task_line, vertex_at, last_line, bad_line};
ghost use Rattle.reports.specs.Found.{figures_in, lines_on, lines_of, Printable};

use table::Outcome;
use text::Page;
use verdict::{Figures, Findings, Verdict};

// A margin.
fn margin<const N: usize>(page: &mut Page<N>, z: i64)
    ensures { Adds page.old page.new (text " margin " ++ signed z) }
{
    page.words(b" margin ");
    page.signed(z);
}

// What a table says first: its processors and its tasks.
fn head_line<const N: usize>(page: &mut Page<N>, m: u8, n: u8)
    ensures { Adds page.old page.new (head_line m n) }
{
    page.labelled(b"processors ", u64::from(m));
    page.labelled(b" tasks ", u64::from(n));
    page.end_line();
}

// A line of task k's figures.
fn task_line<const N: usize>(page: &mut Page<N>, k: usize, f: Figures)
    ensures { Adds page.old page.new (task_line k f) }
{
    page.labelled(b"task ", k as u64);
    page.labelled(b" vol ", f.vol);
    page.labelled(b" len ", f.len);
    page.labelled(b" due ", f.due);
    margin(page, f.margin);
    page.end_line();
}

// The lines of a table's tasks.
fn task_lines<const N: usize>(page: &mut Page<N>, f: Findings)
    requires { Printable f }
    ensures { Adds page.old page.new (in_order f.n (λ k. task_line k (figures_in f k))) }
{
    for k in 0..usize::from(f.n) {
        let (vol, len, due) = (f.vols[k], f.lens[k], f.dues[k]);
        let figures = Figures {
            found: true,
            vol,
            len,
            due,
            margin: verdict::margin_from(f.m, f.deadlines[k], len, due),
        };
        task_line(page, k, figures);
    }
}

// The verdict's first words.
fn answer<const N: usize>(page: &mut Page<N>, number: u8)
    ensures { Adds page.old page.new (pick (eqb number 0) (text "accept") (text "refuse " ++ decimal number)) }
{
    if number == 0 {
        page.words(b"accept");
    } else {
        page.labelled(b"refuse ", u64::from(number));
    }
}

// A chain, its vertices with a space before each, and the line's end.
fn chain<const N: usize>(page: &mut Page<N>, count: u8, chain: [u8; 16])
    requires { count ≤ 16 }
    ensures { Adds page.old page.new (text " chain" ++ in_order count (vertex_at chain) ++ newline) }
{
    page.words(b" chain");
    for vertex in &chain[..usize::from(count)] {
        page.labelled(b" ", u64::from(*vertex));
    }
    page.end_line();
}

// The verdict's line.
fn last_line<const N: usize>(page: &mut Page<N>, v: Verdict)
    requires { v.count ≤ 16 }
    ensures { Adds page.old page.new (last_line v) }
{
    answer(page, v.number);
    page.labelled(b" task ", u64::from(v.task));
    margin(page, v.margin);
    chain(page, v.count, v.chain);
}

// The one line of a file that reading refuses. As `refuse_line` of lines, with another word: the two share crates of text and table alone,
// and neither of those knows the other.
fn bad_line<const N: usize>(page: &mut Page<N>, o: Outcome)
    ensures { Adds page.old page.new (bad_line o) }
{
    page.labelled(b"unreadable ", u64::from(o.number()));
    page.labelled(b" at ", o.place() as u64);
    page.end_line();
}

// The lines of a table.
fn table_lines<const N: usize>(page: &mut Page<N>, f: Findings)
    requires { Printable f }
    ensures { Adds page.old page.new (lines_on f) }
{
    head_line(page, f.m, f.n);
    task_lines(page, f);
    last_line(page, f.verdict);
}

// The lines of a file.
pub(crate) fn lines_of<const N: usize>(page: &mut Page<N>, f: Findings)
    requires { f.outcome ≡ Read → Printable f }
    ensures { Adds page.old page.new (lines_of f) }
{
    let o = f.outcome;
    let Outcome::Read = o else {
        return bad_line(page, o);
    };
    table_lines(page, f);
}
