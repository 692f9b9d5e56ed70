// Opening a table: all tasks are idle with wait 0.
ghost use Rattle.std.specs.Prelude.{◌≡◌};
ghost use Rattle.machine.specs.States.{zeros, unopened, opening};

use crate::{Job, Opened, Phase, Reply, State, TaskState};
use table::Outcome;

// A state of zeros but for its clock and its phase.
pub fn zeros(clock: u32, phase: Phase) -> State
    ensures { result ≡ zeros clock phase }
{
    let idle = TaskState {
        wait: 0,
        jobs: [Job::Nothing; 4],
    };
    State {
        clock,
        phase,
        tasks: [idle; 16],
        remaining: [0; 1024],
        work: [0; 64],
    }
}

// A refused opening: reading's number and place, and a state that fits no table.
fn unopened(o: Outcome) -> Opened
    ensures { result ≡ unopened o }
{
    Opened {
        reply: Reply::unread(o),
        state: zeros(0, Phase::Stopped(255)),
    }
}

// Opens a table's bytes at any clock.
pub fn open(bytes: &[u8], clock: u32) -> Opened
    ensures { result ≡ opening bytes.now clock }
{
    let loaded = table::read(bytes);
    let o = loaded.outcome;
    let Outcome::Read = o else {
        return unopened(o);
    };
    Opened {
        reply: Reply::of(0, 255),
        state: zeros(clock, Phase::Running),
    }
}
