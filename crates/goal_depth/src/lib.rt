//! How deep the formulas of a goal may be, with the laws that canonical forms keep within it, and that a certificate can name what is.
//!
//! Each law is the contract of a function that does nothing: a caller that calls it may use the law in its proofs.
#![tactic(auto)]

mod laws;

pub use laws::{can_be_named, forms_are_shallow, lists_are_shallow};
