//! The heads of lists.

use smt_theory::Operator;

/// What the first item of a list is.
#[derive(Clone, Copy, Debug, PartialEq, Eq)]
pub enum Head {
    /// No symbol.
    NoSymbol,
    /// A symbol that stands for nothing.
    Unknown,
    /// `let`
    Let,
    /// `!`
    Annotated,
    /// A symbol that stands for a term, and takes no arguments.
    Constant,
    /// A symbol that stands for a function.
    Function,
    /// An operator of Core or Ints.
    Operator(Operator),
}
