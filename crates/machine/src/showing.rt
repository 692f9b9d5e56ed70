// What a screen asks of a state: which places have a live job.
ghost use Rattle.std.specs.Prelude.{◌≡◌, ◌/◌, ◌%◌};
ghost use Rattle.graph.specs.Words.{set_of};
ghost use Rattle.machine.specs.States.{live};

use crate::{State, held};

// The set of slots, 16 times age place plus task, with a live job.
pub fn live_slots(st: State) -> u64
    ensures { result ≡ set_of 64 (λ s. live st (s % 16) (s / 16)) }
{
    held::live_set(st.tasks)
}
