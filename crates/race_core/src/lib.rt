// The race machine: races between branches, their winners and their lemmas, as plain data that changes a step at a time.
// The layer above gets `apply_step` and `run_steps`, which are exactly the steps of specs/Machine.antt, and the laws of
// `law`: what a race that is collected shows, and what a chain is. The crate stands on std alone.
#![tactic(auto)]

mod law;
mod machine;
mod step;

pub use law::{chains_follow_parents, collected_races_are_settled};
pub use machine::{BranchState, Branches, Place, Race, RaceKind, RaceList, RaceState, RaceStep};
pub use step::{apply_step, run_steps};
