// The writer's tests 3 to 7 and 10, on the table itself. What they mean is in table's specs/Writing.antt.
#![tactic(auto)]

mod checking;
mod entries;

pub use checking::{check, edges_of};
pub use entries::unused_zero;
