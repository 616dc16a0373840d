//! The two simplest reducers: `skip` gives the goal as it stands, and `fail` fails.
#![tactic(auto)]

mod fail;
mod skip;
mod success;

pub use fail::FailReducer;
pub use skip::Skip;
pub use success::one_goal;
