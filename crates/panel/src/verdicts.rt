// The verdict on a file, the sharp one, and their reports from C.
ghost use Rattle.std.specs.Prelude.{◌≡◌, length};
ghost use Rattle.graph.specs.Words.{flag};
ghost use Rattle.quick.specs.Quick.{quick};
ghost use Rattle.verdict.specs.Verdicts.{verdict};
ghost use Rattle.sharp.specs.Sharp.{sharp};
ghost use Rattle.reports.specs.Report.{report, sharp_report, report_into};
ghost use Rattle.panel.specs.Answers.{verdict_face};

use crate::VerdictAnswer;
use verdict::Verdict;

// A verdict as it crosses.
impl From<Verdict> for VerdictAnswer {
    ghost from_gives = { λ v a. a ≡ verdict_face v };

    fn from(v: Verdict) -> VerdictAnswer {
        let chain = v.chain;
        VerdictAnswer {
            place: v.place as u64,
            margin: v.margin,
            number: v.number,
            task: v.task,
            count: v.count,
            chain,
            pad: [0; 5],
        }
    }
}

// The verdict on a file.
pub fn mt_verdict(bytes: &[u8]) -> VerdictAnswer
    ensures { result ≡ verdict_face (verdict bytes.now) }
{
    VerdictAnswer::from(verdict::verdict_of(bytes))
}

// The sharp verdict on a file.
pub fn mt_sharp(bytes: &[u8]) -> VerdictAnswer
    ensures { result ≡ verdict_face (sharp bytes.now) }
{
    VerdictAnswer::from(sharp::sharp_of(bytes))
}

// Whether the verdict on a file is 0: 1 for yes, 0 for no.
pub fn mt_quick(bytes: &[u8]) -> u8
    ensures { result ≡ flag (quick bytes.now) }
{
    u8::from(quick::quick(bytes))
}

// The report on a file: its text at the front of the buffer if it fits there, and the rest as it was; its length.
pub fn mt_report(bytes: &[u8], out: &mut [u8]) -> u64
    ensures { (result ≡ length (report bytes.now)) × (out.new ≡ report_into (report bytes.now) out.old) }
{
    reports::report_into(bytes, out) as u64
}

// The sharp report on a file, likewise.
pub fn mt_sharp_report(bytes: &[u8], out: &mut [u8]) -> u64
    ensures { (result ≡ length (sharp_report bytes.now)) × (out.new ≡ report_into (sharp_report bytes.now) out.old) }
{
    reports::sharp_report_into(bytes, out) as u64
}
