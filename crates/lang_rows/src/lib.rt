//! Strategies whose parts run in a row: `then` and `repeat`, and `par-then` where one worker runs it.
//!
//! A `Row` is a success of the first part with the runs of the rest on its first goals; the ends of a row make the run of the whole
//! strategy (`HasRun` of `lang_runs`) out of it. A `Beside` is the same for `par-then`. The runner of strategies stands above.
#![tactic(auto)]

mod beside;
mod beside_ends;
mod ends;
mod joined;
mod law;
mod limits;
mod row;
mod tests;
mod ways;

pub use beside::{Beside, Part};
pub use beside_ends::{beside_first_failed, finish_beside, finish_beside_sat};
pub use ends::{finish, finish_failed, finish_sat, first_failed, rests};
pub use joined::Joined;
pub use law::rows_stay;
pub use row::Row;
pub use tests::{is_sat, is_unchanged};
