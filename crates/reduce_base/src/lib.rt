//! What the reducers rest on: the canonical list of a goal within its size, with the steps of a certificate that lead from the goal to
//! it.
#![tactic(auto)]

mod fault;
mod forms;
mod listing;
mod places;
mod trace;

pub use fault::Fault;
pub use forms::canonical_forms;
pub use listing::{Listed, list_goal};
