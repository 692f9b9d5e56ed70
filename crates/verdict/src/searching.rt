// What both verdicts do with margins and figures, whichever they are: the search for the margin that decides, and the row of a figure.
ghost use Rattle.std.specs.Prelude.{◌≡◌, ℕ, ◌<◌, min, ℤ};
ghost use Rattle.verdict.specs.Verdicts.{up_to};
ghost use Rattle.verdict.specs.Judging.{judged_by};

use crate::Decided;

// The figures of a table's tasks by which a verdict goes. Each task number has some, also where the table has no such task.
pub trait Figuring {
    ghost margin_of: { Self → ℕ → ℤ };

    ghost due_of: { Self → ℕ → ℕ };

    fn margin_at(&self, k: usize) -> i64
        ensures { result ≡ margin_of self.now k };

    fn due_at(&self, k: usize) -> u64
        ensures { result ≡ due_of self.now k };
}

// The first negative margin of the tasks in turn, which has the number that is given; or, where none is negative, the first that is the
// smallest, with number 0. Where there is no task: number 0 of task 0, with the largest margin that there is.
pub fn judge<F: Figuring>(n: u8, number: u8, figures: &F) -> Decided
    ensures { (z : ℕ → ℤ) → ((k : ℕ) → k < n → F.margin_of figures.now k ≡ z k) → result ≡ judged_by n number z }
{
    let mut task: u8 = 0;
    let mut best = i64::MAX;
    for k in 0..n {
        let z = figures.margin_at(usize::from(k));
        if z < 0 {
            return Decided {
                number,
                task: k,
                margin: z,
            };
        }
        if z < best {
            best = z;
            task = k;
        }
    }
    Decided {
        number: 0,
        task,
        margin: best,
    }
}

// A row of sixteen: what is due for each of n tasks, as many as it has room for, and zeros.
pub fn dues_up_to<F: Figuring>(n: u8, figures: &F) -> [u64; 16]
    ensures { (f : ℕ → ℕ) → ((k : ℕ) → k < min n 16 → F.due_of figures.now k ≡ f k) → result ≡ up_to n f }
{
    let mut row = [0u64; 16];
    for k in 0..usize::from(n.min(16)) {
        row[k] = figures.due_at(k);
    }
    row
}
