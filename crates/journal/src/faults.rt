// The refusals of a row, in an enum, and their numbers.
ghost use Rattle.std.specs.Prelude.{◌≡◌};

// Why a row is refused: document 02, M-100, in its order.
#[derive(Clone, Copy, Debug, PartialEq, Eq)]
pub(crate) enum Fault {
    AfterMiss,
    CutShort,
    WrongMark,
    BadList,
    NoSuchTask,
    TooEarly,
    NotAvailable,
    TooFew,
    PassesOver,
}

impl Fault {
    ghost use Rattle.journal.specs.Faults.{number};

    // The number in the ruling.
    pub(crate) fn number(self) -> u8
        ensures { result ≡ number self }
    {
        match self {
            Fault::AfterMiss => 47,
            Fault::CutShort => 40,
            Fault::WrongMark => 41,
            Fault::BadList => 42,
            Fault::NoSuchTask => 31,
            Fault::TooEarly => 33,
            Fault::NotAvailable => 44,
            Fault::TooFew => 45,
            Fault::PassesOver => 46,
        }
    }
}
