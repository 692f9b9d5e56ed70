// The exports of the C face, under the names that include/milltundra.h declares: each calls the function of the crate panel that has its
// name, and says of it what that one says.
#![tactic(auto)]

ghost use Rattle.std.specs.Prelude.{◌≡◌, length};
ghost use Rattle.graph.specs.Words.{flag};
ghost use Rattle.table.specs.Writing.{written};
ghost use Rattle.quick.specs.Quick.{quick};
ghost use Rattle.verdict.specs.Verdicts.{verdict};
ghost use Rattle.sharp.specs.Sharp.{sharp};
ghost use Rattle.reports.specs.Report.{report, sharp_report, report_into};
ghost use Rattle.panel.specs.Tables.{table_of};
ghost use Rattle.panel.specs.Answers.{read_answer, write_answer, verdict_face, open_answer, tick_answer, ruling_answer};

use panel::{
    FaceState, FaceTable, OpenAnswer, ReadAnswer, RulingAnswer, TickAnswer, TickedFace,
    VerdictAnswer, WriteAnswer,
};

// Reads a table file.
#[unsafe(no_mangle)]
pub extern "C" fn mt_read(bytes: &[u8]) -> ReadAnswer
    ensures { result ≡ read_answer bytes.now }
{
    panel::mt_read(bytes)
}

// Writes a table's file to the front of the buffer and leaves the rest; a refusal writes nothing.
#[unsafe(no_mangle)]
pub extern "C" fn mt_write(table: FaceTable, buffer: &mut [u8]) -> WriteAnswer
    ensures { (result ≡ write_answer (table_of table) (length buffer.old)) × (buffer.new ≡ written (table_of table) buffer.old) }
{
    panel::mt_write(table, buffer)
}

// Opens a table file at any clock.
#[unsafe(no_mangle)]
pub extern "C" fn mt_open(bytes: &[u8], clock: u32) -> OpenAnswer
    ensures { result ≡ open_answer bytes.now clock }
{
    panel::mt_open(bytes, clock)
}

// One tick; bit i of the release set names task i.
#[unsafe(no_mangle)]
pub extern "C" fn mt_tick(bytes: &[u8], state: FaceState, releases: u16) -> TickedFace
    ensures { result ≡ tick_answer bytes.now state releases }
{
    panel::mt_tick(bytes, state, releases)
}

// The same tick on a state that the caller keeps.
#[unsafe(no_mangle)]
pub extern "C" fn mt_tick_in_place(state: &mut FaceState, bytes: &[u8], releases: u16) -> TickAnswer
    ensures { (result ≡ (tick_answer bytes.now state.old releases).answer) × (state.new ≡ (tick_answer bytes.now state.old releases).state) }
{
    panel::mt_tick_in_place(state, bytes, releases)
}

// The verdict on a file.
#[unsafe(no_mangle)]
pub extern "C" fn mt_verdict(bytes: &[u8]) -> VerdictAnswer
    ensures { result ≡ verdict_face (verdict bytes.now) }
{
    panel::mt_verdict(bytes)
}

// The sharp verdict on a file.
#[unsafe(no_mangle)]
pub extern "C" fn mt_sharp(bytes: &[u8]) -> VerdictAnswer
    ensures { result ≡ verdict_face (sharp bytes.now) }
{
    panel::mt_sharp(bytes)
}

// Whether the verdict on a file is 0: 1 for yes, 0 for no.
#[unsafe(no_mangle)]
pub extern "C" fn mt_quick(bytes: &[u8]) -> u8
    ensures { result ≡ flag (quick bytes.now) }
{
    panel::mt_quick(bytes)
}

// The report on a file: its text at the front of the buffer if it fits there, and the rest as it was; its length.
#[unsafe(no_mangle)]
pub extern "C" fn mt_report(bytes: &[u8], out: &mut [u8]) -> u64
    ensures { (result ≡ length (report bytes.now)) × (out.new ≡ report_into (report bytes.now) out.old) }
{
    panel::mt_report(bytes, out)
}

// The sharp report on a file, likewise.
#[unsafe(no_mangle)]
pub extern "C" fn mt_sharp_report(bytes: &[u8], out: &mut [u8]) -> u64
    ensures { (result ≡ length (sharp_report bytes.now)) × (out.new ≡ report_into (sharp_report bytes.now) out.old) }
{
    panel::mt_sharp_report(bytes, out)
}

// The ruling on a journal of a table file.
#[unsafe(no_mangle)]
pub extern "C" fn mt_judge(bytes: &[u8], rows: &[u8]) -> RulingAnswer
    ensures { result ≡ ruling_answer bytes.now rows.now }
{
    panel::mt_judge(bytes, rows)
}
