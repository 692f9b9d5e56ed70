// A tick's line: the clock before it, what was released, and what the machine answered.
ghost use Rattle.std.specs.Prelude.{◌≡◌, ◌++◌};
ghost use Rattle.text.specs.Page.{Adds};
ghost use Rattle.lines.specs.Lines.{numbers_in, left_text, went_text, refusal_text, answer_text, tick_line, line_of};

use crate::{Line, parts};
use machine::{Answer, Reply};
use parts::Jobs;
use text::Page;

// Some words and the tasks of a set.
fn named(page: &mut Line, label: &[u8], set: u16)
    ensures { Adds page.old page.new (label.now ++ numbers_in set) }
{
    page.words(label);
    parts::numbers_in(page, set);
}

// The work left of each live job.
fn left(page: &mut Line, jobs: &Jobs)
    ensures { Adds page.old page.new (left_text jobs.now.live jobs.now.work) }
{
    page.words(b" left");
    parts::works(page, jobs);
}

// The vertices that ran, the tasks finished and the work left.
fn went(page: &mut Line, a: Answer, jobs: &Jobs)
    ensures { Adds page.old page.new (went_text a jobs.now.live jobs.now.work) }
{
    page.words(b" run");
    parts::vertices(page, a.ran);
    named(page, b" finish", a.finished);
    left(page, jobs);
}

// A refusal's number, and its task where there is one.
fn refusal(page: &mut Line, reply: Reply)
    ensures { Adds page.old page.new (refusal_text reply) }
{
    page.labelled(b" refuse ", u64::from(reply.number));
    if reply.task != 255 {
        page.labelled(b" task ", u64::from(reply.task));
    }
}

// What the machine answered.
fn answered(page: &mut Line, a: Answer, jobs: &Jobs)
    ensures { Adds page.old page.new (answer_text a jobs.now.live jobs.now.work) }
{
    let reply = a.reply;
    if reply.number == 0 {
        went(page, a, jobs);
    } else if reply.number == 34 {
        went(page, a, jobs);
        page.labelled(b" miss ", u64::from(reply.task));
    } else {
        refusal(page, reply);
    }
}

// The line of a tick that began at a clock; the slots with a live job and the row of work left are those after it.
pub fn tick_line(clock: u32, releases: u16, a: Answer, live: u64, work: [u64; 64]) -> Line
    ensures { result ≡ line_of (tick_line clock releases a live work) }
{
    let mut page = Page::new();
    page.labelled(b"tick ", u64::from(clock));
    named(&mut page, b" release", releases);
    answered(&mut page, a, &Jobs { live, work });
    page.end_line();
    page
}
