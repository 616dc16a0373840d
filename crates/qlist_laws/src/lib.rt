//! The laws of the canonical form and the canonical list that steps between goals rest on.
//!
//! Each law is the contract of a function that does nothing: a caller that calls it may use the law in its proofs.
#![tactic(auto)]

mod laws;

pub use laws::{
    has_parts_alone, is_its_own_list, keeps_list_names, keeps_list_sorts, keeps_models, keeps_names,
};
