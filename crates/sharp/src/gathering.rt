// What the sharp figures of a table's tasks are made of, and the figures that follow: due work and margin. Document 02, M-107.
ghost use Rattle.sharp.specs.Ranges.{InRange};

use crate::{closed, putting};
use table::Table;
use verdict::{Decided, Figuring};

// A row of sixteen for each, beside the table's costs and its tails, and no array of tasks: `Findings`, which reports show, takes the rows as
// they are. What this shares with verdict's `Measures` is the trait `Figuring`, with `judge` and `dues_up_to` over it, and `margin_from`.
#[derive(Drop)]
pub(crate) struct Gathering<'a> {
    pub(crate) m: u8,
    pub(crate) n: u8,
    pub(crate) deadlines: [u32; 16],
    pub(crate) periods: [u32; 16],
    pub(crate) counts: [u8; 16],
    pub(crate) vols: [u64; 16],
    pub(crate) lens: [u64; 16],
    pub(crate) costs: &'a [u32; 256],
    pub(crate) tails: &'a [u32; 256],
    ghost in_range: { InRange n deadlines periods counts costs.now },
}

impl<'a> Gathering<'a> {
    ghost use Rattle.std.specs.Prelude.{◌≡◌, ◌<◌, length};
    ghost use Rattle.std.specs.Option.{MatchOption};
    ghost use Rattle.table.specs.declared.Table.{Table};
    ghost use Rattle.table.specs.Good.{GoodTable};
    ghost use Rattle.verdict.specs.Verdicts.{up_to};
    ghost use Rattle.verdict.specs.Measured.{decided};
    ghost use Rattle.sharp.specs.Sharp.{sharp_due, sharp_on};
    ghost use Rattle.sharp.specs.Gathered.{Gathered, due_in, margin_in, NoneLate, FirstLate};

    // Those of a good table; its tails go to the row that is lent.
    pub(crate) fn of(t: &'a Table, tails: &'a mut [u32; 256]) -> Self
        requires { GoodTable t.now × (length tails.old ≡ 256) }
        ensures { Gathered t.now result }
    {
        let mut deadlines = [0u32; 16];
        let mut periods = [0u32; 16];
        let mut counts = [0u8; 16];
        let mut vols = [0u64; 16];
        let mut lens = [0u64; 16];
        for i in 0..usize::from(t.n) {
            let x = t.tasks[i];
            let own = verdict::own_costs(&t.costs, i);
            let after = chains::tails_of(x.succ, own);
            deadlines[i] = x.d;
            periods[i] = x.t;
            counts[i] = x.v;
            vols[i] = verdict::total_of(own);
            lens[i] = putting::longest_of(own, after);
            putting::put_tails(tails, i, after);
        }
        Gathering {
            m: t.m,
            n: t.n,
            deadlines,
            periods,
            counts,
            vols,
            lens,
            costs: &t.costs,
            tails,
        }
    }

    // What all tasks ask for within task k's deadline.
    pub(crate) fn due(&self, k: usize) -> u64
        requires { k < self.now.n }
        ensures { result ≡ due_in self.now k }
    {
        let d = self.deadlines[k];
        let mut due: u64 = 0;
        for i in 0..usize::from(self.n) {
            let v = usize::from(self.counts[i]);
            due += closed::asked_from(self.costs, self.tails, 16 * i, v, d, self.periods[i]);
        }
        due
    }

    // The sharp margin of task k.
    pub(crate) fn margin(&self, k: usize) -> i64
        requires { k < self.now.n }
        ensures { result ≡ margin_in self.now k }
    {
        verdict::margin_from(self.m, self.deadlines[k], self.lens[k], self.due(k))
    }

    // The sharp due work for each task of the table.
    pub(crate) fn dues(&self) -> [u64; 16]
        ensures { (t : Table) → GoodTable t → Gathered t self.now → result ≡ up_to t.n (sharp_due t) }
    {
        verdict::dues_up_to(self.n, self)
    }

    // The lowest task whose longest chain exceeds its deadline.
    fn first_late(&self) -> Option<usize>
        ensures { MatchOption result (NoneLate self.now) (FirstLate self.now) }
    {
        (0..usize::from(self.n)).find(|k| u64::from(self.deadlines[*k]) < self.lens[*k])
    }

    // The sharp verdict on the table, before a chain is looked for. A chain that is too long is looked for over all tasks first.
    pub(crate) fn judged(&self) -> Decided
        ensures { (t : Table) → GoodTable t → Gathered t self.now → result ≡ decided (sharp_on t) }
    {
        if let Some(k) = self.first_late() {
            return Decided {
                number: 22,
                task: k as u8,
                margin: self.margin(k),
            };
        }
        verdict::judge(self.n, 23, self)
    }
}

impl Figuring for Gathering<'_> {
    ghost use Rattle.std.specs.Prelude.{ltb, pos};
    ghost use Rattle.graph.specs.Words.{pick};
    ghost use Rattle.sharp.specs.Gathered.{due_in, margin_in};

    ghost margin_of = { λ x k. pick (ltb k x.n) (margin_in x k) (pos 0) };

    ghost due_of = { λ x k. pick (ltb k x.n) (due_in x k) 0 };

    fn margin_at(&self, k: usize) -> i64 {
        if k < usize::from(self.n) {
            self.margin(k)
        } else {
            0
        }
    }

    fn due_at(&self, k: usize) -> u64 {
        if k < usize::from(self.n) {
            self.due(k)
        } else {
            0
        }
    }
}
