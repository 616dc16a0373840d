//! The values of terms under a model.
//!
//! A model gives names their values, and `eval` the value of a term, or its first subterm in postorder that passes 128 bits.
//! The definition of the bounds that formulas give names stands in specs/ for the crates above.
#![tactic(auto)]

mod bounds;
mod compute;
mod error;
mod evaluate;
mod model;

pub use bounds::{bounds_are_tightest, truth_is_within_bounds};
pub use error::EvalError;
pub use evaluate::eval;
pub use model::{Model, Value};
