//! What a run of a strategy hands back, and the nodes of its derivation but for those with children in a row.
//!
//! `HasRun` (`specs/Runs.antt`) says what the answer of a run is: a derivation that the strategy has on the goal, with converters that
//! fit it. Each function here makes the answer for one form of strategy out of those of its parts, and its law says so: whatever the
//! strategies, where the parts' answers are runs, so is this one. The runner of strategies stands above.
#![tactic(auto)]

mod alone;
mod around;
mod failures;
mod laws;
mod named;
mod ran;
mod sums;

pub use alone::{copied, rests_alone, stopped, told};
pub use around::{Around, surround};
pub use failures::{Failures, tried, tried_all};
pub use laws::{drawn_is_the_lesser, runs_stay};
pub use named::prim;
pub use ran::{Ran, RunStop, discard};
pub use sums::{add, lesser, remains};
