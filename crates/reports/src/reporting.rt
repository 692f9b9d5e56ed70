// The report on a file and the sharp report, in a buffer of our own or the caller's: document 01, "Examples by hand"; document 02, M-107.
ghost use Rattle.std.specs.Prelude.{◌≡◌, length};
ghost use Rattle.table.specs.declared.Outcome.TheVariants.{Read};
ghost use Rattle.reports.specs.Report.{report, sharp_report, reported, report_into};
ghost use Rattle.reports.specs.Found.{lines_of, Printable};

use crate::{Report, printing};
use text::Page;
use verdict::Findings;

// The text of what was found, and zeros behind it.
fn text_of(f: Findings) -> Report
    requires { f.outcome ≡ Read → Printable f }
    ensures { result ≡ reported (lines_of f) }
{
    let mut page = Page::new();
    printing::lines_of(&mut page, f);
    page
}

// The text of what was found at the front of a caller's buffer, if it fits there; its length. The page is as small as the longest report.
fn text_into(f: Findings, out: &mut [u8]) -> usize
    requires { f.outcome ≡ Read → Printable f }
    ensures { (result ≡ length (lines_of f)) × (out.new ≡ report_into (lines_of f) out.old) }
{
    let mut page: Page<1366> = Page::new();
    printing::lines_of(&mut page, f);
    let words = page.text();
    if words.len() <= out.len() {
        out[..words.len()].copy_from_slice(words);
    }
    words.len()
}

// The report on a file: its text, and zeros behind it.
pub fn report_of(bytes: &[u8]) -> Report
    ensures { result ≡ reported (report bytes.now) }
{
    text_of(verdict::findings_of(bytes))
}

// The report on a file at the front of a caller's buffer, if it fits there; its length.
pub fn report_into(bytes: &[u8], out: &mut [u8]) -> usize
    ensures { (result ≡ length (report bytes.now)) × (out.new ≡ report_into (report bytes.now) out.old) }
{
    text_into(verdict::findings_of(bytes), out)
}

// The sharp report on a file.
pub fn sharp_report_of(bytes: &[u8]) -> Report
    ensures { result ≡ reported (sharp_report bytes.now) }
{
    text_of(sharp::sharp_findings_of(bytes))
}

// The sharp report on a file at the front of a caller's buffer.
pub fn sharp_report_into(bytes: &[u8], out: &mut [u8]) -> usize
    ensures { (result ≡ length (sharp_report bytes.now)) × (out.new ≡ report_into (sharp_report bytes.now) out.old) }
{
    text_into(sharp::sharp_findings_of(bytes), out)
}
