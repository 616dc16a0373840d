//! Goals: formulas with a precision, and what can be read off them.
//!
//! A precision tells which way a goal is true to what it came from. `Goal::decided` tells a goal that is done, and `low` and `up`
//! the bounds of a name that stand in it as they are. What a model of formulas is, and what a step from a goal to others keeps,
//! stands in `specs`.
#![tactic(auto)]

mod bounds;
mod goal;
mod precision;

pub use bounds::{low, models_are_within_bounds, up};
pub use goal::{Decided, Goal};
pub use precision::{Precision, precisions_join};
