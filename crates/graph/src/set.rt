// The numbers that a set of bits holds, lowest first.
ghost use Rattle.std.specs.Prelude.{◌≡◌};
ghost use Rattle.std.specs.Iterator.{at_most};
ghost use Rattle.graph.specs.Members.{TakesLowest};

// Bit k of `rest` says that k is still to come.
#[derive(Clone, Copy)]
pub struct Members {
    pub rest: u64,
}

impl Members {
    pub fn of(set: u64) -> Members
        ensures { result.rest ≡ set }
    {
        Members { rest: set }
    }
}

impl From<u16> for Members {
    ghost from_gives = { λ set members. members.rest ≡ set };

    fn from(set: u16) -> Members {
        Members::of(u64::from(set))
    }
}

impl Iterator for Members {
    type Item = usize;

    ghost next_gives = { TakesLowest };

    ghost remaining = { λ s. at_most s.rest };

    fn next(&mut self) -> Option<usize> {
        if self.rest == 0 {
            return None;
        }
        let lowest = self.rest.trailing_zeros() as usize;
        self.rest &= self.rest - 1;
        Some(lowest)
    }
}
