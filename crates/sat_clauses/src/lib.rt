//! Formulas that are clauses, as clauses over numbered variables, for a solver.
//!
//! `read_clauses` reads the clauses, with the names numbered by their places in a list, or tells the first formula that is no clause.
//! The laws say that what follows by reverse unit propagation from the numbered clauses follows from the formulas, and that
//! a model of the ones is a model of the others.
#![tactic(auto)]

mod clauses;
mod laws;
mod numbers;

pub use clauses::{ReadClauses, read_clauses};
pub use laws::{clauses_have_the_models, lines_follow_from_formulas};
pub use numbers::{Numbers, numbers_of};
