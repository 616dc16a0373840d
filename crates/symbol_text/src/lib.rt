//! Symbols of SMT-LIB 2.6 as they are written: plain where they can be, and else between bars.
//!
//! The contract for the layer above: `push_symbol` adds the written symbol to a text. It stands on `sexp_read` for what a simple
//! symbol is.
#![tactic(auto)]

mod reserved;
mod symbol;

pub use reserved::is_reserved;
pub use symbol::{is_plain, push_symbol};
