// Opening and ticking the machine from C.
ghost use Rattle.std.specs.Prelude.{◌≡◌};
ghost use Rattle.panel.specs.Answers.{opened_face, open_answer, answer_face, ticked_face, refused_face, tick_answer};

use crate::{FaceState, OpenAnswer, TickAnswer, TickedFace};
use machine::{Answer, Opened, State, Ticked, Triple};
use table::Outcome;

// Opening's answer as it crosses.
impl From<Opened> for OpenAnswer {
    ghost from_gives = { λ o a. a ≡ opened_face o };

    fn from(o: Opened) -> OpenAnswer {
        OpenAnswer {
            place: o.reply.place as u64,
            number: o.reply.number,
            task: o.reply.task,
            pad: [0; 6],
            state: FaceState::from(o.state),
        }
    }
}

// Opens a table file at any clock.
pub fn mt_open(bytes: &[u8], clock: u32) -> OpenAnswer
    ensures { result ≡ open_answer bytes.now clock }
{
    OpenAnswer::from(machine::open(bytes, clock))
}

// A tick's answer as it crosses.
impl From<Answer> for TickAnswer {
    ghost from_gives = { λ a t. t ≡ answer_face a };

    fn from(a: Answer) -> TickAnswer {
        let Answer {
            reply,
            ran,
            finished,
        } = a;
        TickAnswer {
            place: reply.place as u64,
            number: reply.number,
            task: reply.task,
            finished,
            ran,
            pad: [0; 4],
        }
    }
}

// The same with the next state.
impl From<Ticked> for TickedFace {
    ghost from_gives = { λ t f. f ≡ ticked_face t };

    fn from(t: Ticked) -> TickedFace {
        TickedFace {
            answer: TickAnswer::from(t.answer),
            state: FaceState::from(t.state),
        }
    }
}

// A refusal that names no task: the same state, eight unused places, the empty set.
fn refused_face(state: FaceState, number: u8, place: usize) -> TickedFace
    ensures { result ≡ refused_face state number place }
{
    let unused = Triple {
        task: 255,
        age: 255,
        vertex: 255,
    };
    let answer = TickAnswer {
        place: place as u64,
        number,
        task: 255,
        finished: 0,
        ran: [unused; 8],
        pad: [0; 4],
    };
    TickedFace { answer, state }
}

// One tick of a state that crossed.
fn tick_face(f: FaceState, bytes: &[u8], releases: u16) -> TickedFace
    ensures { result ≡ tick_answer bytes.now f releases }
{
    if f.is_proper() {
        let before = State::from(f);
        return TickedFace::from(before.tick(bytes, releases));
    }
    let loaded = table::read(bytes);
    let o = loaded.outcome;
    let Outcome::Read = o else {
        return refused_face(f, o.number(), o.place());
    };
    refused_face(f, 30, 0)
}

// One tick; bit i of the release set names task i.
pub fn mt_tick(bytes: &[u8], state: FaceState, releases: u16) -> TickedFace
    ensures { result ≡ tick_answer bytes.now state releases }
{
    tick_face(state, bytes, releases)
}

// The same tick on a state that the caller keeps.
pub fn mt_tick_in_place(state: &mut FaceState, bytes: &[u8], releases: u16) -> TickAnswer
    ensures { (result ≡ (tick_answer bytes.now state.old releases).answer) × (state.new ≡ (tick_answer bytes.now state.old releases).state) }
{
    let ticked = tick_face(*state, bytes, releases);
    *state = ticked.state;
    ticked.answer
}
