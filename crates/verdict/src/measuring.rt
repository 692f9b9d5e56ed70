// What the figures of a table's tasks are made of, and the figures that follow: due and margin. Document 01, "The verdict".
ghost use Rattle.verdict.specs.Ranges.{InRange};

use crate::searching::Figuring;
use crate::{Decided, figuring, searching};
use table::Table;

// A row of sixteen for each, and no array of tasks: `Findings`, which reports show, takes the rows as they are.
#[derive(Drop)]
pub(crate) struct Measures {
    pub(crate) m: u8,
    pub(crate) n: u8,
    pub(crate) deadlines: [u32; 16],
    pub(crate) periods: [u32; 16],
    pub(crate) vols: [u64; 16],
    pub(crate) lens: [u64; 16],
    ghost in_range: { InRange n deadlines periods vols },
}

impl Measures {
    ghost use Rattle.std.specs.Prelude.{◌≡◌, ◌<◌};
    ghost use Rattle.table.specs.Good.{GoodTable};
    ghost use Rattle.table.specs.declared.Table.{Table};
    ghost use Rattle.verdict.specs.Verdicts.{due, up_to, verdict_on};
    ghost use Rattle.verdict.specs.Measured.{Holds, due_in, margin_in, decided};

    // Those of a good table.
    pub(crate) fn of(t: &Table) -> Self
        requires { GoodTable t.now }
        ensures { Holds t.now result }
    {
        let mut deadlines = [0u32; 16];
        let mut periods = [0u32; 16];
        let mut vols = [0u64; 16];
        let mut lens = [0u64; 16];
        for i in 0..usize::from(t.n) {
            let x = t.tasks[i];
            let own = figuring::own_costs(&t.costs, i);
            deadlines[i] = x.d;
            periods[i] = x.t;
            vols[i] = figuring::total_of(own);
            lens[i] = graph::longest(x.succ, own);
        }
        Measures {
            m: t.m,
            n: t.n,
            deadlines,
            periods,
            vols,
            lens,
        }
    }

    // What all tasks owe within task k's deadline.
    pub(crate) fn due(&self, k: usize) -> u64
        requires { k < self.now.n }
        ensures { result ≡ due_in self.now k }
    {
        let d = self.deadlines[k];
        let mut due: u64 = 0;
        for i in 0..usize::from(self.n) {
            due += u64::from(d.div_ceil(self.periods[i])) * self.vols[i];
        }
        due
    }

    // The margin of task k.
    pub(crate) fn margin(&self, k: usize) -> i64
        requires { k < self.now.n }
        ensures { result ≡ margin_in self.now k }
    {
        figuring::margin_from(self.m, self.deadlines[k], self.lens[k], self.due(k))
    }

    // What is due for each task of the table.
    pub(crate) fn dues(&self) -> [u64; 16]
        ensures { (t : Table) → GoodTable t → Holds t self.now → result ≡ up_to t.n (due t) }
    {
        searching::dues_up_to(self.n, self)
    }

    // The verdict on the table, before a chain is looked for.
    pub(crate) fn judged(&self) -> Decided
        ensures { (t : Table) → GoodTable t → Holds t self.now → result ≡ decided (verdict_on t) }
    {
        searching::judge(self.n, 20, self)
    }
}

impl Figuring for Measures {
    ghost use Rattle.std.specs.Prelude.{ltb, pos};
    ghost use Rattle.graph.specs.Words.{pick};
    ghost use Rattle.verdict.specs.Measured.{due_in, margin_in};

    ghost margin_of = { λ x k. pick (ltb k x.n) (margin_in x k) (pos 0) };

    ghost due_of = { λ x k. pick (ltb k x.n) (due_in x k) 0 };

    fn margin_at(&self, k: usize) -> i64 {
        if k < usize::from(self.n) {
            self.margin(k)
        } else {
            0
        }
    }

    fn due_at(&self, k: usize) -> u64 {
        if k < usize::from(self.n) {
            self.due(k)
        } else {
            0
        }
    }
}
