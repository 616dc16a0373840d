//! A search for a model of clauses that is watched by a racer.
//!
//! The racer polls once for each lemma and then draws one ticket. A winner that it saw halts the search, and else the end of the pool.
#![tactic(auto)]

mod halt;
mod search;
mod ticker;
mod watch;

pub use halt::Halt;
pub use search::{Decision, decide};
