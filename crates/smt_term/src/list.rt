//! What begins to be read: atoms are terms at once, and lists by their heads.
ghost use Rattle.std.specs.Prelude.{◌≡◌, ◌+◌};
ghost use Rattle.std.specs.Option.{option_copied};
ghost use Rattle.strat_text.specs.Form.{form_of, forms_of};
ghost use Rattle.smt_names.specs.Given.{IsIn, Goes, scopes_in, seen};
ghost use Rattle.smt_term.specs.Callee.{function_of};
ghost use Rattle.smt_term.specs.Frames.{weight, weights};
ghost use Rattle.smt_term.specs.Term as spec;
ghost use Rattle.smt_term.specs.Turns.{Turns, callee_in, done_with};

use crate::annotated::start_annotated;
use crate::argument::start_application;
use crate::bindings::start_let;
use crate::frame::{Callee, Turn};
use qterm::{Store, TermId};
use sexp_read::Sexp;
use smt_names::{Head, State, atom, head_of, name, place, text_at};
use smt_words::{ReadError, What, refused};
use std::alloc::Global;

/// Begins an s-expression that stands in the list at the place `at`.
pub(crate) fn start<'a>(
    alloc: Global,
    bytes: &'a [u8],
    sexp: &'a Sexp,
    at: usize,
    state: &mut State,
    store: &mut Store,
) -> Result<Turn<'a>, ReadError>
    requires there { IsIn store.old state.old }
    ensures turns { Turns bytes.now state.old.scopes (weight (form_of bytes.now sexp.now)) store.new state.new (spec.read_term (scopes_in store.old state.old.scopes) (form_of bytes.now sexp.now) at (seen store.old state.old)) result }
    ensures goes { Goes store.old state.old store.new state.new }
{
    match sexp {
        Sexp::Atom { kind, start, end } => done(atom(
            *kind,
            text_at(bytes, *start, *end),
            *start,
            at,
            state,
            store,
        )),
        Sexp::List { items, start, .. } => {
            start_list(alloc, bytes, items.as_slice(), *start, state, store)
        }
    }
}

/// A term, or the refusal of it, as a turn.
pub(crate) fn done<'a>(answer: Result<TermId, ReadError>) -> Result<Turn<'a>, ReadError>
    ensures { result ≡ done_with answer }
{
    match answer {
        Ok(id) => Ok(Turn::Done(id)),
        Err(fault) => Err(fault),
    }
}

/// Begins a list, by its head.
fn start_list<'a>(
    alloc: Global,
    bytes: &'a [u8],
    items: &'a [Sexp],
    at: usize,
    state: &mut State,
    store: &mut Store,
) -> Result<Turn<'a>, ReadError>
    requires there { IsIn store.old state.old }
    ensures turns { Turns bytes.now state.old.scopes (2 + weights (forms_of bytes.now items.now)) store.new state.new (spec.read_list (scopes_in store.old state.old.scopes) (forms_of bytes.now items.now) at (seen store.old state.old)) result }
    ensures goes { Goes store.old state.old store.new state.new }
{
    match items {
        [] => Err(refused(What::BadShape, at)),
        [first, args @ ..] => match head_of(bytes, first, state) {
            Head::NoSymbol => Err(refused(What::BadShape, at)),
            Head::Unknown => Err(refused(What::UnknownSymbol, place(bytes, first))),
            Head::Let => start_let(alloc, bytes, args, at, state),
            Head::Annotated => start_annotated(args, at),
            Head::Constant => {
                start_application(alloc, bytes, Callee::Nothing, args, at, state, store)
            }
            Head::Function => {
                let callee = function(name(bytes, first));
                start_application(alloc, bytes, callee, args, at, state, store)
            }
            Head::Operator(operator) => {
                let callee = Callee::Operator(operator);
                start_application(alloc, bytes, callee, args, at, state, store)
            }
        },
    }
}

/// The function of the name that a head is.
fn function<'a>(name: Option<&'a [u8]>) -> Callee<'a>
    ensures { callee_in result ≡ function_of (option_copied name.entry) }
{
    match name {
        Some(name) => Callee::Function(name),
        None => Callee::Nothing,
    }
}
