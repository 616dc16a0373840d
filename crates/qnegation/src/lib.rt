//! The negation of canonical formulas, and And, Or, Iff and Ite over canonical terms.
//!
//! `negate` gives the negation of a canonical formula, or nothing where it has none, with a table that the caller keeps, so that
//! each distinct formula is negated once. `canonical_junction`, `canonical_iff` and `canonical_ite` give the canonical form of a connective over canonical
//! terms. The definitions stand in `qlin`.
#![tactic(auto)]

mod iff;
mod ite;
mod junction;
mod negation;
mod opposite;
mod pair;

pub use iff::canonical_iff;
pub use ite::canonical_ite;
pub use junction::canonical_junction;
pub use negation::{Negations, negate};
