//! Probes: what strategies ask of goals.
//!
//! `probe` answers the value of a probe on a goal, by the definition over the goal's trees that `specs/Probe.antt` has. Each measure takes
//! one walk over the distinct subterms of the goal, or one over its formulas.
#![tactic(auto)]

mod canonical;
mod depth;
mod names;
mod ranges;
mod value;

pub use depth::deepest;
pub use value::probe;
