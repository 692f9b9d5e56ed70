// What a tick answers: a reply, the vertices that ran, and the state that comes with them.
ghost use Rattle.std.specs.Prelude.{◌≡◌, ◌<◌};
ghost use Rattle.table.specs.Numbers.{number, place};
ghost use Rattle.machine.specs.Steps.{listed};
ghost use Rattle.machine.specs.Rows.{reply_of};
ghost use Rattle.machine.specs.Ticking.{nobody, triple_of, run_list, refuse};

use crate::{Answer, Chosen, Reply, State, Ticked, Triple};
use table::Outcome;

impl Triple {
    // An unused place of a run list.
    #[tactic(auto, unfolding(crate::specs::Ticking::nobody))]
    fn nobody() -> Triple
        ensures { result ≡ nobody }
    {
        Triple {
            task: 255,
            age: 255,
            vertex: 255,
        }
    }

    // The vertex that goes by `key` in a choice.
    #[tactic(auto, unfolding(crate::specs::Ticking::triple_of, crate::specs::Steps::task_in, crate::specs::Steps::age_in, crate::specs::Steps::vertex_in))]
    fn of(key: u16) -> Triple
        requires { key < 1024 }
        ensures { result ≡ triple_of key }
    {
        Triple {
            task: (key / 64) as u8,
            age: (key / 16 % 4) as u8,
            vertex: (key % 16) as u8,
        }
    }
}

impl Reply {
    // A reply at place 0.
    pub(crate) fn of(number: u8, task: u8) -> Reply
        ensures { result ≡ reply_of number task }
    {
        Reply {
            number,
            place: 0,
            task,
        }
    }

    // The reply where reading stopped: its number and place, no task.
    pub(crate) fn unread(o: Outcome) -> Reply
        ensures { result ≡ record { number = number o; place = place o; task = 255 } }
    {
        Reply {
            number: o.number(),
            place: o.place(),
            task: 255,
        }
    }
}

// The vertices that ran, eight places.
fn run_list(chosen: Chosen) -> [Triple; 8]
    ensures { result ≡ run_list (listed chosen) }
{
    std::array::from_fn(|j| {
        if j < chosen.count {
            Triple::of(chosen.keys[j] % 1024)
        } else {
            Triple::nobody()
        }
    })
}

impl Answer {
    // 0 or 34.
    pub(crate) fn of(number: u8, task: u8, chosen: Chosen, finished: u16) -> Answer
        ensures { result ≡ record { reply = reply_of number task; ran = run_list (listed chosen); finished = finished } }
    {
        Answer {
            reply: Reply::of(number, task),
            ran: run_list(chosen),
            finished,
        }
    }
}

impl Ticked {
    // The same state, eight unused places, the empty set.
    pub(crate) fn refused(state: State, reply: Reply) -> Ticked
        ensures { result ≡ refuse state reply.number reply.place reply.task }
    {
        Ticked {
            answer: Answer {
                reply,
                ran: [Triple::nobody(); 8],
                finished: 0,
            },
            state,
        }
    }
}
