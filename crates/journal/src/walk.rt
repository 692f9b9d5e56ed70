// Judging row by row: document 02, M-100. The definitions are in specs/Judging.antt.
ghost use Rattle.std.specs.Prelude.{◌≡◌, ℕ, length, IsOk, IfOk, IfErr};
ghost use Rattle.table.specs.declared.Table.{Table};
ghost use Rattle.machine.specs.declared.State.{State};
ghost use Rattle.machine.specs.Steps.{released, offered};
ghost use Rattle.machine.specs.Ticking.{advance};
ghost use Rattle.journal.specs.Rows.{row_set, listed, is_stopped, choice_fault, fault};
ghost use Rattle.journal.specs.Faults.{number, outcome};
ghost use Rattle.journal.specs.Listing.{too_wide, Narrow, judge_piece};
ghost use Rattle.journal.specs.Judging.{judge_rows, start, ruling, unread, judge};

use crate::faults::Fault;
use crate::fields::Row;
use crate::{Progress, Ruling, lists};
use machine::{Offer, Phase, State};
use table::{Outcome, Table};

// Whether a machine is stopped, as a miss leaves it. No method of `Phase`: no other crate asks for a bool, the panel's face wants a byte.
fn is_stopped(phase: Phase) -> bool
    ensures { result ≡ is_stopped phase }
{
    matches!(phase, Phase::Stopped(_))
}

// A table that is `Narrow` is `judge_piece`'s to tell from others: a type for it would be made there and taken apart in each function between.

// The row at a place, once the refusals of its bytes and of its release set are past, in order.
fn checked_row<'a>(t: Table, st: State, bytes: &'a [u8], at: usize) -> Result<Row<'a>, Fault>
    requires { Narrow t }
    ensures row { IfOk result (λ row. (row.bytes.now ≡ bytes.now) × (row.at ≡ at)) }
    ensures passed { IsOk result → fault t st bytes.now at ≡ choice_fault t (released t st (row_set bytes.now at)) bytes.now at }
    ensures refused { IfErr result (λ f. fault t st bytes.now at ≡ number f) }
{
    if is_stopped(st.phase) {
        return Err(Fault::AfterMiss);
    }
    let Some(row) = Row::read(bytes, at) else {
        return Err(Fault::CutShort);
    };
    if row.is_unmarked() {
        return Err(Fault::WrongMark);
    }
    if row.is_bad_list(t.m) {
        return Err(Fault::BadList);
    }
    let set = row.set();
    // Most rows name no task.
    if set == 0 {
        return Ok(row);
    }
    if machine::first_beyond(set, t.n).is_some() {
        return Err(Fault::NoSuchTask);
    }
    if machine::first_early(set, t.n, st).is_some() {
        return Err(Fault::TooEarly);
    }
    Ok(row)
}

// The refusals of a row's choice, in order. The offer is that of its release set.
fn check_choice(m: u8, offer: Offer, row: &Row) -> Result<(), Fault>
    ensures { (t : Table) (st : State) (set : ℕ) → m ≡ t.m → offer ≡ offered t st set → outcome result ≡ choice_fault t (released t st set) row.now.bytes.now row.now.at }
{
    if !lists::are_in(&offer.sets, row) {
        return Err(Fault::NotAvailable);
    }
    if lists::is_few(row.count(), m, &offer.sets) {
        return Err(Fault::TooFew);
    }
    if lists::is_passing_over(&offer.sets, &offer.left, row) {
        return Err(Fault::PassesOver);
    }
    Ok(())
}

// The row at a place, if it is not refused.
fn legal_row<'a>(t: Table, st: State, bytes: &'a [u8], at: usize) -> Result<Row<'a>, Fault>
    requires { Narrow t }
    ensures row { IfOk result (λ row. (row.bytes.now ≡ bytes.now) × (row.at ≡ at)) }
    ensures number { outcome result ≡ fault t st bytes.now at }
{
    let row = checked_row(t, st, bytes, at)?;
    let offer = machine::offered(t, st, row.set());
    check_choice(t.m, offer, &row)?;
    Ok(row)
}

// The machine after a row that is not refused: its tick with what the row lists.
fn state_after(t: Table, st: State, row: &Row) -> State
    requires narrow { Narrow t }
    requires legal { fault t st row.now.bytes.now row.now.at ≡ 0 }
    ensures { result ≡ (advance t st (row_set row.now.bytes.now row.now.at) (listed row.now.bytes.now row.now.at)).state }
{
    machine::advance(t, st, row.set(), lists::chosen(row)).state
}

// The rows that begin before place `end`, from a state on, until one is refused; for this one nothing moves.
fn judge_rows(t: Table, bytes: &[u8], end: usize, st: State) -> Progress
    requires { Narrow t }
    ensures { result ≡ judge_rows t bytes.now end (start st) }
{
    let mut state = st;
    let mut next: usize = 0;
    let mut rows: usize = 0;
    // A row's length is in its bytes, so no iterator is plainer.
    while next < end {
        let row = match legal_row(t, state, bytes, next) {
            Ok(row) => row,
            Err(fault) => {
                return Progress {
                    number: fault.number(),
                    next,
                    rows,
                    state,
                };
            }
        };
        state = state_after(t, state, &row);
        next = row.end();
        rows += 1;
    }
    Progress {
        number: 0,
        next,
        rows,
        state,
    }
}

// The ruling at the end.
pub fn rule(p: Progress) -> Ruling
    ensures { result ≡ ruling p }
{
    if p.number == 0 {
        Ruling {
            number: 0,
            place: 0,
            row: 0,
            rows: p.rows,
            missed: is_stopped(p.state.phase),
        }
    } else {
        Ruling {
            number: p.number,
            place: 0,
            row: p.rows,
            rows: 0,
            missed: false,
        }
    }
}

// The ruling on a file that is not read.
pub fn unreadable(o: Outcome) -> Ruling
    ensures { result ≡ unread o }
{
    Ruling {
        number: o.number(),
        place: o.place(),
        row: 0,
        rows: 0,
        missed: false,
    }
}

// Whether a table has more processors or tasks than one that is read.
fn is_too_wide(t: Table) -> bool
    ensures { result ≡ too_wide t }
{
    8 < t.m || 16 < t.n
}

// Judges a piece of a journal, so that a buffer of some size is enough for any length. 3, as reading refuses such a table.
pub fn judge_piece(t: Table, piece: &[u8], end: usize, st: State) -> Progress
    ensures { result ≡ judge_piece t piece.now end st }
{
    if is_too_wide(t) {
        return Progress {
            number: 3,
            next: 0,
            rows: 0,
            state: st,
        };
    }
    judge_rows(t, piece, end, st)
}

// Judges a journal against a table's bytes.
pub fn judge(file: &[u8], journal: &[u8]) -> Ruling
    ensures { result ≡ judge file.now journal.now }
{
    let loaded = table::read(file);
    let o = loaded.outcome;
    let Outcome::Read = o else {
        return unreadable(o);
    };
    let idle = machine::zeros(0, Phase::Running);
    rule(judge_rows(loaded.table, journal, journal.len(), idle))
}
