//! The outside of a program, its bytes in and out, and the s-expressions of those bytes.
//!
//! A layer above reads a source whole by `read_all`, its s-expressions one by one by `next_sexp`, and writes by
//! `write_whole`. Faults of reading and writing are answered only where the source or sink counted one.
#![tactic(auto)]

mod lexical;
mod memory;
mod outside;
mod parsing;
mod place;
mod reading;
mod sexp;
mod standard;
mod sure;
mod token;
mod writing;

pub use lexical::is_simple_symbol;
pub use memory::{MemSink, MemSource};
pub use outside::{Failed, Sink, Source};
pub use parsing::next_sexp;
pub use place::line_column;
pub use reading::{ReadEnd, read_all};
pub use sexp::{AtomKind, BadText, Next, Sexp, atom_text, symbol_name};
pub use standard::{StdSink, StdSource};
pub use sure::{SureSink, SureSource};
pub use writing::write_whole;
