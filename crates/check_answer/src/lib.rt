//! What a check answers, decided on the goals that its strategy came to.
//!
//! `decide` gives the answer that goals with their converters allow: a model of the assertions, lifted from the first goal that is sat; or
//! a certificate against them, where all goals are unsat; or the goals, undecided. The definition of an answer (`specs/Answers.antt`) is
//! over derivations of trees. Races, reducers and the runner of strategies stand above.
#![tactic(auto)]

mod answers;
mod deciding;
mod refuting;

pub use answers::{Answer, Why};
pub use deciding::{Reached, decide};
