//! Changes of lists of formulas that the reducers of bounds make.
//!
//! The definitions say which formulas are left or added. The calls make them in a store, and the lemmas say what the changes do to
//! models.
#![tactic(auto)]

mod narrow;

pub use narrow::is_narrow;
