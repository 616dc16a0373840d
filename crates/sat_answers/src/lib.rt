//! What the reducer `sat` makes of the answers of the clause solver: goals with converters, and lemmas as terms.
//!
//! `number_names` numbers the names of a canonical list. `found` and `refuted` give the success, with the steps of lifting or those of the
//! refutation, in the words of the row of sat; `told` gives the terms of lemmas.
#![tactic(auto)]

mod finding;
mod lemmas;
mod numbering;
mod refuting;
mod sets;
mod success;

pub use finding::found;
pub use lemmas::told;
pub use numbering::number_names;
pub use refuting::refuted;
