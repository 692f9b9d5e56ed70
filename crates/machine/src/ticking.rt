// The tick: its steps one after the other, and its refusals. The definitions are in specs/Ticking.antt. A table, a state and a release set stay
// apart: the three come from three hands.
ghost use Rattle.std.specs.Prelude.{◌≡◌, ◌<◌, ◌≤◌, ◌&&◌, nat_le, nat_lt};
ghost use Rattle.graph.specs.Words.{bit, lowest_or};
ghost use Rattle.machine.specs.States.{wait};
ghost use Rattle.table.specs.Good.{GoodTable};
ghost use Rattle.machine.specs.Steps.{offered, own_choice, listed};
ghost use Rattle.machine.specs.Rows.{rows_fit, refusal_of};
ghost use Rattle.machine.specs.Ticking.{advance, tick_on};

use crate::rows::Rows;
use crate::{Chosen, Offer, Phase, Reply, State, Ticked, choosing, closing, held, lent};
use table::Table;

// Whether number i is named though it is no task.
fn is_beyond(named: u16, n: u8, i: u8) -> bool
    requires { i < 16 }
    ensures { result ≡ (bit named i && nat_le n i) }
{
    (named >> i) % 2 == 1 && n <= i
}

// 31: the lowest named number at or above n.
pub fn first_beyond(named: u16, n: u8) -> Option<u8>
    ensures { result ≡ lowest_or 16 (λ i. bit named i && nat_le n i) Some None }
{
    if named == 0 {
        return None;
    }
    (0..16u8).find(|i| is_beyond(named, n, *i))
}

// 33: the lowest named task with a wait above 0.
pub fn first_early(named: u16, n: u8, st: State) -> Option<u8>
    ensures { result ≡ lowest_or n (λ i. bit named i && nat_lt 0 (wait st i)) Some None }
{
    lent::first_early(named, n, &held::waits_of(st.tasks))
}

// 30, 32, 31 and 33, in this order.
fn refusal(t: &Table, rows: &Rows, remaining: &[u32; 1024], named: u16) -> Result<(), Reply>
    requires { t.now.n ≤ 16 }
    ensures { result ≡ refusal_of (rows_fit t.now rows.now remaining.now) rows.now.phase named t.now.n rows.now.waits }
{
    if !rows.fits(t, remaining) {
        return Err(Reply::of(30, 255));
    }
    let Phase::Running = rows.phase else {
        return Err(Reply::of(32, 255));
    };
    if let Some(task) = first_beyond(named, t.n) {
        return Err(Reply::of(31, task));
    }
    if let Some(task) = lent::first_early(named, t.n, &rows.waits) {
        return Err(Reply::of(33, task));
    }
    Ok(())
}

// The tick on a table.
pub(crate) fn tick_on(t: Table, mut st: State, named: u16) -> Ticked
    requires { GoodTable t }
    ensures { result ≡ tick_on own_choice t st named }
{
    let mut rows = Rows::of(&st);
    if let Err(reply) = refusal(&t, &rows, &st.remaining, named) {
        return Ticked::refused(st, reply);
    }
    rows.release(t, named, &mut st.remaining);
    let chosen = choosing::own_choice(t, &rows, &st.remaining);
    rows.run(chosen, &mut st.remaining);
    let done = rows.done();
    rows.told(chosen, done, closing::tasks_in(done), &mut st.remaining)
}

// Steps 1, 4, 5 and 6, with the vertices that a choice lists; one that is listed twice runs once. Any state is taken, so every gap is closed.
pub fn advance(t: Table, mut st: State, named: u16, chosen: Chosen) -> Ticked
    ensures { result ≡ advance t st named (listed chosen) }
{
    let mut rows = Rows::of(&st);
    rows.release(t, named, &mut st.remaining);
    rows.run(choosing::once(chosen), &mut st.remaining);
    let done = rows.done();
    rows.told(chosen, done, u16::MAX, &mut st.remaining)
}

// Step 2, once step 1 is made, and what step 3 ranks by.
pub fn offered(t: Table, mut st: State, named: u16) -> Offer
    ensures { result ≡ offered t st named }
{
    let mut rows = Rows::of(&st);
    rows.release(t, named, &mut st.remaining);
    Offer {
        sets: choosing::sets_of(&t, rows.live, &st.remaining),
        left: rows.ticks_left(),
    }
}
