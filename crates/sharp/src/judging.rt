// The sharp verdict on a table and on a file: document 02, M-107.
ghost use Rattle.std.specs.Prelude.{◌≡◌};
ghost use Rattle.table.specs.Good.{GoodTable};
ghost use Rattle.sharp.specs.Sharp.{sharp_on, sharp};

use crate::gathering::Gathering;
use table::{Outcome, Table};
use verdict::Verdict;

// The sharp verdict on a good table. `GoodTable` is what reading has shown, as in verdict.
fn sharp_on(t: &Table) -> Verdict
    requires { GoodTable t.now }
    ensures { result ≡ sharp_on t.now }
{
    let mut tails = [0u32; 256];
    let x = Gathering::of(t, &mut tails);
    verdict::chained(t, x.judged())
}

// The sharp verdict on a file.
pub fn sharp_of(bytes: &[u8]) -> Verdict
    ensures { result ≡ sharp bytes.now }
{
    let l = table::read(bytes);
    let o = l.outcome;
    let Outcome::Read = o else {
        return verdict::unread(o);
    };
    sharp_on(&l.table)
}
