//! The bounds that formulas give names as they stand, in one table, and the bounds that are missing.
#![tactic(auto)]

mod adding;
mod table;

pub use adding::bounded;
pub use table::{Range, range_at, ranges};
