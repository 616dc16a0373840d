//! The reducer `normalize-bounds`: names are shifted so that their lower bounds become 0.
#![tactic(auto)]

mod normalize_bounds;
mod normalizing;

pub use normalize_bounds::NormalizeBounds;
