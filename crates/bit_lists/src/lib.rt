//! Names between 0 and an upper bound, which are split into bits.
//!
//! The definitions say which names of a list can't be split, which are, by which bits, and which steps carry a model back. The calls make
//! the split formulas in a store, and the steps. The laws say what splitting does to models.
#![tactic(auto)]

mod laws;
mod refusing;
mod row;
mod splits;
mod splitting;
mod steps;
mod sums;
mod taking;

pub use laws::{splits_keep_models, splits_stand_in_turn};
pub use refusing::Refusal;
pub use splits::Split;
pub use splitting::{SplitError, SplitList, split_names};
pub use steps::lifting;
