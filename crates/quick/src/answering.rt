// Yes or no: task by task, as far as the first whose due work exceeds its allowance.
ghost use Rattle.std.specs.Prelude.{◌≡◌, eqb};
ghost use Rattle.table.specs.Good.{GoodTable};
ghost use Rattle.verdict.specs.Verdicts.{verdict_on};
ghost use Rattle.quick.specs.Quick.{quick};

use crate::sums;
use table::{Outcome, Table};

// The allowance, m times D less (m minus 1) times len, may be negative: so both sides are kept positive. The due work grows task by
// task, and the chain is looked for only where that alone is within m times D.
fn quick_on(t: &Table) -> bool
    requires { GoodTable t.now }
    ensures { result ≡ eqb (verdict_on t.now).number 0 }
{
    let n = usize::from(t.n);
    let all = sums::loads_of(t);
    let loads = &all[..n];
    let m = u64::from(t.m);
    let fewer = m - 1;
    for k in 0..n {
        let x = t.tasks[k];
        let most = m * u64::from(x.d);
        let due = sums::due_within(loads, x.d, most);
        if most < due {
            return false;
        }
        let room = most - due;
        if sums::chain_exceeds(&t.costs, k, x.succ, loads[k].vol, fewer, room) {
            return false;
        }
    }
    true
}

// Whether the verdict on a file is 0.
pub fn quick(bytes: &[u8]) -> bool
    ensures { result ≡ quick bytes.now }
{
    let l = table::read(bytes);
    let o = l.outcome;
    let Outcome::Read = o else {
        return false;
    };
    // Taken out here and not lent where it was read: so a refused file's table is not copied.
    let t = l.table;
    quick_on(&t)
}
