//! The reducer `sat`: whether the clauses of a goal have a model.
//!
//! The canonical list of the goal is read as clauses, which a search under the racer's eye decides within the limit on lemmas.
#![tactic(auto)]

mod deciding;
mod sat;
mod spending;

pub use sat::Sat;
