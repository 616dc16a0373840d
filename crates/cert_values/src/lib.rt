//! The rules of certificates that speak of values: the cases of an `Ite`, the interval of a term, and truth tables.
//!
//! Each rule is one call: over the items of a state it gives the new items, exactly as the rule's word in `tac_cert` does over their
//! trees, or nothing where the rule refuses. That the rules keep items satisfiable is the contract of `keep_satisfiable`.
#![tactic(auto)]

mod choices;
mod few;
mod intervals;
mod laws;
mod tables;

pub use choices::ite_parts;
pub use intervals::range;
pub use laws::{follows_by_table, holds_values, keep_satisfiable};
pub use tables::table;
