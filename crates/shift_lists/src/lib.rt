//! Names that are shifted so that their lower bounds become 0.
//!
//! The definitions say which names of a list are shifted, by which numbers, and which steps carry a model back. The calls make the shifted
//! formulas in a store, and the steps. The laws say what the shifts do to models.
#![tactic(auto)]

mod laws;
mod shifting;
mod steps;
mod taking;

pub use laws::{shifts_keep_models, shifts_stand_in_turn};
pub use shifting::{Shift, Shifted, shift_names};
pub use steps::lifting;
