//! What the answers of the clause solver say of the formulas that its clauses were read from, in the words of the row of sat.
//!
//! Each law is the contract of a function that does nothing.
#![tactic(auto)]

mod laws;

pub use laws::{
    found_values_are_a_model, lines_are_lemmas, names_are_numbered, read_lists_are_clauses,
    refuted_lists_have_no_model,
};
