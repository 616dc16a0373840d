//! Checks: a strategy decides assertions, and the record of the check tells all of it.
//!
//! `check` runs a strategy on the precise goal of assertions under a race table of its own, and decides the goals that it came to;
//! `apply_only` hands them back. The record keeps the derivation: what `specs/Records.antt` says of it is all that an answer rests on.
#![tactic(auto)]

mod answering;
mod checking;
mod kept;
mod runnable;
mod running;

pub use check_answer::{Answer, Why};
pub use checking::{apply_only, check};
pub use kept::CheckRecord;
pub use runnable::can_run;
