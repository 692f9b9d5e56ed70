// The judge of journals from C.
ghost use Rattle.std.specs.Prelude.{◌≡◌};
ghost use Rattle.panel.specs.Answers.{ruling_face, ruling_answer};

use crate::RulingAnswer;
use journal::Ruling;

// A ruling as it crosses.
impl From<Ruling> for RulingAnswer {
    ghost from_gives = { λ r a. a ≡ ruling_face r };

    fn from(r: Ruling) -> RulingAnswer {
        RulingAnswer {
            place: r.place as u64,
            row: r.row as u64,
            rows: r.rows as u64,
            number: r.number,
            missed: u8::from(r.missed),
            pad: [0; 6],
        }
    }
}

// The ruling on a journal of a table file.
pub fn mt_judge(bytes: &[u8], rows: &[u8]) -> RulingAnswer
    ensures { result ≡ ruling_answer bytes.now rows.now }
{
    RulingAnswer::from(journal::judge(bytes, rows))
}
