// All that a sharp report shows of a file: document 02, M-107.
ghost use Rattle.std.specs.Prelude.{◌≡◌};
ghost use Rattle.table.specs.Good.{GoodTable};
ghost use Rattle.sharp.specs.Sharp.{sharp_findings_on, sharp_findings};

use crate::gathering::Gathering;
use table::{Outcome, Table};
use verdict::Findings;

// Those of a good table. There are two of these, one here and one in verdict: the rows differ (tails, costs by vertex), and what both share are
// the trait `Figuring`, with `judge` and `dues_up_to` over it, and `margin_from` of verdict.
fn sharp_findings_on(t: &Table) -> Findings
    requires { GoodTable t.now }
    ensures { result ≡ sharp_findings_on t.now }
{
    let mut tails = [0u32; 256];
    let x = Gathering::of(t, &mut tails);
    let dues = x.dues();
    let verdict = verdict::chained(t, x.judged());
    let Gathering {
        m,
        n,
        deadlines,
        vols,
        lens,
        ..
    } = x;
    Findings {
        outcome: Outcome::Read,
        m,
        n,
        deadlines,
        vols,
        lens,
        dues,
        verdict,
    }
}

// All that a sharp report shows of a file.
pub fn sharp_findings_of(bytes: &[u8]) -> Findings
    ensures { result ≡ sharp_findings bytes.now }
{
    let l = table::read(bytes);
    let o = l.outcome;
    let Outcome::Read = o else {
        return verdict::no_findings(o);
    };
    sharp_findings_on(&l.table)
}
