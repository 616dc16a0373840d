//! The lines of a refutation by a clause solver as steps of a certificate.
//!
//! `refutation` makes of each line its step, and leaves `false` alone. The clauses come back as terms by the names of their numbers.
#![tactic(auto)]

mod laws;
mod lines;
mod terms;

pub use laws::names_are_different;
pub use lines::refutation;
pub use terms::clause_term;
