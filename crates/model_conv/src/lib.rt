//! Converters of models, which are spent once.
//!
//! A step of a strategy that changes a goal hands back, for each of its subgoals, the lifting steps that carry a model of the
//! subgoal back to one of the goal. `ModelConv::lift` runs them, by the definition of `specs/Lift.antt`, and tells the name at which a
//! number passes 128 bits. A converter can't be dropped: it is lifted, discarded, or goes into another one.
#![tactic(auto)]

mod conv;
mod error;
mod form;
mod laws;
mod lift;
mod step;

pub use conv::{Discarded, ModelConv};
pub use error::LiftError;
pub use laws::{
    lifting_keeps_numbers_narrow, lifting_keeps_sorts, lifts_compose, names_are_forgotten_last,
};
pub use step::LiftStep;
