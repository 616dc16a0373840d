//! Literals, clauses and reverse unit propagation: the test whether a clause follows from others by the hints
//! beside it.
//!
//! The contract for the layer above is that of `rup`, which is exact and sound. The crate stands on std and on
//! `sqlite_items`.
#![tactic(auto)]

mod clause;
mod literal;
mod propagation;
mod values;

pub use clause::Clause;
pub use literal::{Lit, has, has_pair, negate_all, same_lit, within};
pub use propagation::{Status, clause_status, falsified, item, rup};
pub use values::{Valuation, Values};
