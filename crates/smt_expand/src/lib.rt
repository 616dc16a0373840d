//! Bodies of defined functions over arguments.
//!
//! The contract for the layer above: `expand` puts arguments for the parameters in a body and folds constants on the way up, as the
//! operators of the theories do where they are read, or tells that a number passes 128 bits.
#![tactic(auto)]

mod arguments;
mod body;
mod expanding;

pub use body::expand;
