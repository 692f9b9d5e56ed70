// All that a report shows of a file. Document 01, "The verdict".
ghost use Rattle.std.specs.Prelude.{◌≡◌};
ghost use Rattle.table.specs.Good.{GoodTable};
ghost use Rattle.verdict.specs.Verdicts.{findings_on, no_findings, findings};

use crate::measuring::Measures;
use crate::{Findings, judging};
use table::{Outcome, Table};

// Those of a good table.
fn findings_on(t: &Table) -> Findings
    requires { GoodTable t.now }
    ensures { result ≡ findings_on t.now }
{
    let x = Measures::of(t);
    let dues = x.dues();
    let verdict = judging::chained(t, x.judged());
    let Measures {
        m,
        n,
        deadlines,
        vols,
        lens,
        ..
    } = x;
    Findings {
        outcome: Outcome::Read,
        m,
        n,
        deadlines,
        vols,
        lens,
        dues,
        verdict,
    }
}

// None, of a file that reading refuses.
pub fn no_findings(o: Outcome) -> Findings
    ensures { result ≡ no_findings o }
{
    Findings {
        outcome: o,
        m: 0,
        n: 0,
        deadlines: [0; 16],
        vols: [0; 16],
        lens: [0; 16],
        dues: [0; 16],
        verdict: judging::unread(o),
    }
}

// All that a report shows of a file.
pub fn findings_of(bytes: &[u8]) -> Findings
    ensures { result ≡ findings bytes.now }
{
    let l = table::read(bytes);
    let o = l.outcome;
    let Outcome::Read = o else {
        return no_findings(o);
    };
    // Taken out here and not lent where it was read: so a refused file's table is not copied.
    let t = l.table;
    findings_on(&t)
}
