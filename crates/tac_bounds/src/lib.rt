//! Reducers that change which bounds of names stand in a goal, or drop what has too many names.
//!
//! `add-bounds` gives names the bounds that they lack, and `drop-wide` keeps the formulas of few names alone.
#![tactic(auto)]

mod add_bounds;
mod bounding;
mod drop_wide;
mod narrowing;

pub use add_bounds::AddBounds;
pub use drop_wide::DropWide;
