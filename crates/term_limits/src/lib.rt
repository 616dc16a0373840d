//! The limits on the terms that a command of a script reads.
//!
//! The contract for the layer above: `InForce` keeps the assertions in force with their distinct subterms, so that the terms of a command
//! cost only what is new in them, and tells by `limit` whether they are too deep or, with the assertions, too many.
#![tactic(auto)]

mod force;
mod laws;

pub use force::{InForce, Limit};
pub use laws::counted_terms_stay;
