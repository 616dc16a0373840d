//! Terms as shared, numbered nodes: an id in a store is a tree that stays.
//!
//! The crates above see a store as the list of its trees, and an id as a place in that list. Interning a term answers the
//! id of its tree, an old one where the tree is there, and no id that was given out ever means another tree.
#![tactic(auto)]

mod children;
mod name;
mod part;
mod shared;
mod store;
mod term;

pub use name::{Name, Sort, Text};
pub use store::Store;
pub use term::{SUBTERMS, Term, TermId, TermIds};
