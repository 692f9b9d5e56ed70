// The verdict on a table and on a file, and the figures of a file's task: document 01, "The verdict".
ghost use Rattle.std.specs.Prelude.{◌≡◌, ◌+◌, ◌*◌, get_or};
ghost use Rattle.graph.specs.Words.{row};
ghost use Rattle.table.specs.Good.{GoodTable};
ghost use Rattle.verdict.specs.Verdicts.{verdict_on, unread, verdict, no_figures, figures};
ghost use Rattle.verdict.specs.Measured.{own_succ, with_chain};

use crate::measuring::Measures;
use crate::{Decided, Figures, Verdict, figuring};
use chains::ChainFound;
use table::{Outcome, Table};

// A verdict that is decided, with the longest chain of its task, whose successors and costs are given.
pub fn with_chain(d: Decided, succ: [u16; 16], own: [u32; 16]) -> Verdict
    ensures { result ≡ with_chain d succ own }
{
    let ChainFound {
        count,
        vertices: chain,
        ..
    } = chains::longest_chain(succ, own);
    Verdict {
        number: d.number,
        place: 0,
        task: d.task,
        margin: d.margin,
        count,
        chain,
    }
}

// A verdict on a table when its task is known: that task's chain is looked for, and no other's. A task that the table does not have has no
// successors, and costs of zero.
pub fn chained(t: &Table, d: Decided) -> Verdict
    ensures { result ≡ with_chain d (own_succ t.now d.task) (row 16 (λ u. get_or t.now.costs (16 * d.task + u) 0)) }
{
    let k = usize::from(d.task);
    let succ = match t.tasks.get(k) {
        Some(task) => task.succ,
        None => [0; 16],
    };
    let own = figuring::own_costs(&t.costs, k);
    with_chain(d, succ, own)
}

// The verdict on a good table. `GoodTable` is what reading has shown of one: a type around the table would be made where it was read and taken
// apart at its first use.
fn verdict_on(t: &Table) -> Verdict
    requires { GoodTable t.now }
    ensures { result ≡ verdict_on t.now }
{
    chained(t, Measures::of(t).judged())
}

// What a file that reading refuses gets.
pub fn unread(o: Outcome) -> Verdict
    ensures { result ≡ unread o }
{
    Verdict {
        number: o.number(),
        place: o.place(),
        task: 255,
        margin: 0,
        count: 0,
        chain: [255; 16],
    }
}

// The verdict on a file.
pub fn verdict_of(bytes: &[u8]) -> Verdict
    ensures { result ≡ verdict bytes.now }
{
    let l = table::read(bytes);
    let o = l.outcome;
    let Outcome::Read = o else {
        return unread(o);
    };
    // Taken out here and not lent where it was read: so a refused file's table is not copied.
    let t = l.table;
    verdict_on(&t)
}

// None: zeros beside the flag, as the definition of the same name has them.
fn no_figures() -> Figures
    ensures { result ≡ no_figures }
{
    Figures {
        found: false,
        vol: 0,
        len: 0,
        due: 0,
        margin: 0,
    }
}

// The figures of a file's task.
pub fn figures_of(bytes: &[u8], task: u8) -> Figures
    ensures { result ≡ figures bytes.now task }
{
    let l = table::read(bytes);
    let o = l.outcome;
    let Outcome::Read = o else {
        return no_figures();
    };
    let t = l.table;
    let x = Measures::of(&t);
    if x.n <= task {
        return no_figures();
    }
    let k = usize::from(task);
    let due = x.due(k);
    Figures {
        found: true,
        vol: x.vols[k],
        len: x.lens[k],
        due,
        margin: figuring::margin_from(x.m, x.deadlines[k], x.lens[k], due),
    }
}
