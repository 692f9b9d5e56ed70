// Document 01, "Numbers for reading and writing": the number and the place of each outcome.
ghost use Rattle.std.specs.Prelude.{◌≡◌};
ghost use Rattle.table.specs.Numbers.{number, place, writing_number, writing_place};

use crate::{Outcome, Written};

impl Outcome {
    // Reading's number.
    #[tactic(auto, unfolding(crate::specs::Numbers::number))]
    pub fn number(self) -> u8
        ensures { result ≡ number self }
    {
        match self {
            Outcome::Read => 0,
            Outcome::Short(_) => 1,
            Outcome::Mark(_) => 2,
            Outcome::Range(_) => 3,
            Outcome::Ticks(_) => 4,
            Outcome::Order(_) => 5,
            Outcome::Edge(_) => 6,
            Outcome::Cycle(_) => 7,
            Outcome::Extra(_) => 8,
        }
    }

    // Reading's place.
    #[tactic(auto, unfolding(crate::specs::Numbers::place))]
    pub fn place(self) -> usize
        ensures { result ≡ place self }
    {
        match self {
            Outcome::Read => 0,
            Outcome::Short(p)
            | Outcome::Mark(p)
            | Outcome::Range(p)
            | Outcome::Ticks(p)
            | Outcome::Order(p)
            | Outcome::Edge(p)
            | Outcome::Cycle(p)
            | Outcome::Extra(p) => p,
        }
    }
}

impl Written {
    // Writing's number.
    #[tactic(auto, unfolding(crate::specs::Numbers::writing_number))]
    pub fn number(self) -> u8
        ensures { result ≡ writing_number self }
    {
        match self {
            Written::Done(_) => 0,
            Written::Refused(o) => o.number(),
            Written::Unused => 10,
            Written::Room(_) => 9,
        }
    }

    // Writing's place.
    #[tactic(auto, unfolding(crate::specs::Numbers::writing_place))]
    pub fn place(self) -> usize
        ensures { result ≡ writing_place self }
    {
        match self {
            Written::Done(l) | Written::Room(l) => l,
            Written::Refused(o) => o.place(),
            Written::Unused => 0,
        }
    }
}
