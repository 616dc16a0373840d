//! The reducer `simplify`: the canonical list of a goal.
#![tactic(auto)]

mod simplify;

pub use simplify::Simplify;
