//! Terms of a script, from s-expressions to plain terms of a store, without recursion.
//!
//! The contract for the layer above: `read_term` gives the plain term that an s-expression spells under the symbols and scopes of a
//! state, or the first refusal with its place. It stands on `smt_names` for what is read at one level of a term; what waits for a
//! term inside it stands on a stack of frames.
#![tactic(auto)]

mod annotated;
mod argument;
mod bindings;
mod body;
mod frame;
mod list;
mod stack;
mod term;

pub use term::read_term;
