// Parts of a line: tasks of a set, vertices that ran, the work left.
ghost use Rattle.std.specs.Prelude.{◌≡◌, [], ◌<◌, eqb};
ghost use Rattle.graph.specs.Words.{pick, in_order};
ghost use Rattle.text.specs.Text.{text};
ghost use Rattle.text.specs.Page.{Adds};
ghost use Rattle.lines.specs.Lines.{or_dash, numbers_in, vertex_text, vertices_text, slot_in, work_in};

use crate::Line;
use graph::set::Members;
use machine::Triple;

// The jobs that are live: the slots that have one, and the row of work left, a number a slot.
#[derive(Clone, Copy)]
pub(crate) struct Jobs {
    pub live: u64,
    pub work: [u64; 64],
}

// A dash where nothing was put since the text was `from` bytes long.
fn dash(page: &mut Line, from: usize)
    ensures { Adds page.old page.new (pick (eqb page.old.len from) (text " -") []) }
{
    if page.len == from {
        page.words(b" -");
    }
}

// The tasks of a set, ascending, or a dash.
pub(crate) fn numbers_in(page: &mut Line, set: u16)
    ensures { Adds page.old page.new (numbers_in set) }
{
    let from = page.len;
    for i in Members::from(set) {
        page.labelled(b" ", i as u64);
    }
    dash(page, from);
}

// A vertex that ran; nothing for an unused place.
fn vertex(page: &mut Line, p: Triple)
    ensures { Adds page.old page.new (vertex_text p) }
{
    if p.task != 255 {
        page.labelled(b" ", u64::from(p.task));
        page.labelled(b".", u64::from(p.age));
        page.labelled(b".", u64::from(p.vertex));
    }
}

// The vertices that ran, in rank order, or a dash.
pub(crate) fn vertices(page: &mut Line, ran: [Triple; 8])
    ensures { Adds page.old page.new (or_dash (vertices_text ran)) }
{
    let from = page.len;
    for triple in ran {
        vertex(page, triple);
    }
    dash(page, from);
}

// The slot of the job at age place c % 4 of task c / 4.
fn slot_in(c: usize) -> usize
    requires { c < 64 }
    ensures { (result ≡ slot_in c) × (result < 64) }
{
    16 * (c % 4) + c / 4
}

// That job and the work left of it, if it is live.
fn work_in(page: &mut Line, jobs: &Jobs, c: usize)
    requires { c < 64 }
    ensures { Adds page.old page.new (work_in jobs.now.live jobs.now.work c) }
{
    let slot = slot_in(c);
    if (jobs.live >> slot) % 2 == 1 {
        page.labelled(b" ", (c / 4) as u64);
        page.labelled(b".", (c % 4) as u64);
        page.labelled(b":", jobs.work[slot]);
    }
}

// The work left of each live job, ascending by task, then age place, or a dash.
pub(crate) fn works(page: &mut Line, jobs: &Jobs)
    ensures { Adds page.old page.new (or_dash (in_order 64 (work_in jobs.now.live jobs.now.work))) }
{
    let from = page.len;
    for c in 0..64 {
        work_in(page, jobs, c);
    }
    dash(page, from);
}
