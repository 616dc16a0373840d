//! Strategies as text: the language in which users write strategies, read and written exactly.
//!
//! The contract for the layer above: `read_strategy` gives the strategy that an s-expression spells, or the first of its
//! faults, and what `write_strategy` wrote is read back. It stands on `sexp_read` for the s-expressions.
#![tactic(auto)]

mod allowed;
mod copy;
mod error;
mod form;
mod forms;
mod name;
mod number;
mod parts;
mod probe;
mod read;
mod read_probe;
mod settings;
mod strategy;
mod words;
mod write;

pub use allowed::is_allowed;
pub use error::StratError;
pub use name::ReducerName;
pub use number::value;
pub use probe::ProbeExpr;
pub use read::read_strategy;
pub use strategy::{ParamKey, Strategy};
pub use write::write_strategy;
