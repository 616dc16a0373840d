//! A clause solver: clauses in; a model, a refutation or lemmas out, each line of which follows by reverse unit
//! propagation from its hints.
//!
//! The contract for the layer above is that of `Solver::solve`. The search watches two literals of each clause, makes of each
//! false clause a lemma with one literal of the last level, jumps back with it, and starts again now and then; lemmas are kept
//! for good. The crate stands on `rup`.
#![tactic(auto)]

mod analyze;
mod append;
mod arena;
mod backtrack;
mod descend;
mod laws;
mod learn;
mod load;
mod marks;
mod numbers;
mod process;
mod restart;
mod scores;
mod solver;
mod step;
mod trail;
mod tuning;
mod visit;
mod watch;
mod watches;

pub use laws::refuted_clauses_have_no_model;
pub use solver::{RupLine, Solved, Solver, are_below};
pub use watch::Watch;
