//! What waits for the term of a form inside it.

use qterm::TermId;
use sexp_read::Sexp;
use smt_names::Table;
use smt_theory::Operator;

/// What takes the arguments of a list.
#[derive(Clone, Copy)]
pub(crate) enum Callee<'a> {
    /// Nothing: the head stands for a term.
    Nothing,
    /// An operator of Core or Ints.
    Operator(Operator),
    /// The function of this name.
    Function(&'a [u8]),
}

/// A list with arguments, of which one is read.
#[derive(Drop)]
pub(crate) struct Application<'a> {
    /// What takes the arguments.
    pub callee: Callee<'a>,
    /// The place of the list.
    pub at: usize,
    /// All arguments.
    pub args: &'a [Sexp],
    /// The arguments behind the one that is read.
    pub rest: &'a [Sexp],
    /// The terms of those before it.
    pub ids: Vec<TermId>,
}

/// Bindings, of which the term of one is read.
#[derive(Drop)]
pub(crate) struct Bindings<'a> {
    /// The place of the `let`.
    pub at: usize,
    /// The place of the list of bindings.
    pub list_at: usize,
    /// The name that is bound.
    pub name: &'a [u8],
    /// The bindings before it.
    pub scope: Table,
    /// The bindings behind it.
    pub rest: &'a [Sexp],
    /// What stands behind the bindings.
    pub body: &'a [Sexp],
}

/// What waits for a term.
#[derive(Drop)]
pub(crate) enum Frame<'a> {
    /// A list with arguments.
    Application(Application<'a>),
    /// Bindings.
    Bindings(Bindings<'a>),
    /// A `let` whose bindings hold, with its place and what stands behind the term.
    Body { at: usize, rest: &'a [Sexp] },
    /// An annotation, with its place and its attributes.
    Annotation { at: usize, rest: &'a [Sexp] },
}

/// What reading comes to: a term, or something to read inside a frame.
#[derive(Drop)]
pub(crate) enum Turn<'a> {
    /// A term.
    Done(TermId),
    /// An s-expression in the list at a place, for whose term a frame waits.
    Down {
        frame: Frame<'a>,
        sexp: &'a Sexp,
        at: usize,
    },
}
