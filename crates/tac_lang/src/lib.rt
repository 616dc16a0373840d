//! The combinators: strategies are run.
//!
//! `run_strategy` runs a strategy on a goal by the reducers of a registry, and hands back a derivation that the strategy has on it, with
//! its goals and their converters, or a derivation that failed, or the winner that cancelled it. Its parts run in a cycle of small
//! functions, a form each, over any table of reducers and probes (`Table`); what a node hands back is made in `lang_runs`. The runs that a
//! `then` or a `repeat` nests stand on the heap (`Level`), so that the cycle goes as deep as the strategy, and no deeper.
#![tactic(auto)]

mod leaf;
mod level;
mod part;
mod run;
mod table;
mod top;

pub use lang_runs::{Ran, RunStop};
pub use table::Table;
pub use top::run_strategy;
