//! The bindings of a `let`, of which none sees another.
ghost use Rattle.std.specs.Prelude.{◌≡◌, ◌+◌, ◌++◌, ◌∷◌, [], List, None};
ghost use Rattle.std.specs.Map.{lookup};
ghost use Rattle.std.specs.Str.{bytes_eq};
ghost use Rattle.qterm.specs.Tree.{Tree};
ghost use Rattle.qterm.specs.Store.{Has, tree_at};
ghost use Rattle.strat_text.specs.Form.{form_of, forms_of, more};
ghost use Rattle.smt_names.specs.Annotated as annotated;
ghost use Rattle.smt_names.specs.declared.state.State.{State as StateId};
ghost use Rattle.smt_names.specs.Given.{IsIn, Goes, scopes_in, seen};
ghost use Rattle.smt_names.specs.Reading.{after};
ghost use Rattle.smt_names.specs.Table.{AreThere, symbols_in};
ghost use Rattle.smt_term.specs.Frames.{bind_rest, weight, weights};
ghost use Rattle.smt_term.specs.Pairs.{NewNames};
ghost use Rattle.smt_term.specs.Term as spec;
ghost use Rattle.smt_term.specs.Turns.{Turns};

use crate::body::start_body;
use crate::frame::{Bindings, Frame, Turn};
use qterm::TermId;
use sexp_read::Sexp;
use smt_names::{Binding, State, Table, bind, bound_name, pair};
use smt_words::{ReadError, What, refused};
use std::alloc::Global;

/// Begins what stands behind `let`, in the list at the place `at`.
pub(crate) fn start_let<'a>(
    alloc: Global,
    bytes: &'a [u8],
    args: &'a [Sexp],
    at: usize,
    state: &mut State,
) -> Result<Turn<'a>, ReadError>
    ensures turns { (ts : List Tree) → Turns bytes.now state.old.scopes (2 + weights (forms_of bytes.now args.now)) ts state.new (spec.read_let (scopes_in ts state.old.scopes) (forms_of bytes.now args.now) at (seen ts state.old)) result }
    ensures goes { (ts : List Tree) → IsIn ts state.old → Goes ts state.old ts state.new }
{
    match args {
        [] => Err(refused(What::BadShape, at)),
        [bindings, body @ ..] => start_bindings(alloc, bytes, bindings, body, at, state),
    }
}

/// Begins an s-expression as bindings, of which there is one at least.
fn start_bindings<'a>(
    alloc: Global,
    bytes: &'a [u8],
    bindings: &'a Sexp,
    body: &'a [Sexp],
    at: usize,
    state: &mut State,
) -> Result<Turn<'a>, ReadError>
    ensures turns { (ts : List Tree) → Turns bytes.now state.old.scopes (weight (form_of bytes.now bindings.now) + weights (forms_of bytes.now body.now)) ts state.new (after (spec.bindings_in (scopes_in ts state.old.scopes) (form_of bytes.now bindings.now) at) (λ scope. spec.read_body (scope ∷ scopes_in ts state.old.scopes) (forms_of bytes.now body.now) at) (seen ts state.old)) result }
    ensures goes { (ts : List Tree) → IsIn ts state.old → Goes ts state.old ts state.new }
{
    match bindings {
        Sexp::Atom { .. } => Err(refused(What::BadShape, at)),
        Sexp::List { items, start, .. } => {
            let items = items.as_slice();
            if items.is_empty() {
                return Err(refused(What::BadShape, at));
            }
            next_binding(bytes, Table::new(alloc), items, body, at, *start, state)
        }
    }
}

/// Begins the next binding of the list at a place, or the term in which the bindings hold where none is left.
fn next_binding<'a>(
    bytes: &'a [u8],
    scope: Table,
    rest: &'a [Sexp],
    body: &'a [Sexp],
    at: usize,
    list_at: usize,
    state: &mut State,
) -> Result<Turn<'a>, ReadError>
    ensures turns { (ts : List Tree) → AreThere ts scope → Turns bytes.now state.old.scopes (1 + (1 + (weights (forms_of bytes.now rest.now) + weights (forms_of bytes.now body.now)))) ts state.new (bind_rest (scopes_in ts state.old.scopes) at list_at (forms_of bytes.now body.now) (forms_of bytes.now rest.now) (symbols_in ts scope) (seen ts state.old)) result }
    ensures goes { (ts : List Tree) → AreThere ts scope → IsIn ts state.old → Goes ts state.old ts state.new }
{
    match rest {
        [] => start_body(at, scope, body, state),
        [binding, behind @ ..] => start_binding(bytes, scope, binding, behind, body, at, list_at),
    }
}

/// Begins the term of a binding in the list at a place.
fn start_binding<'a>(
    bytes: &'a [u8],
    scope: Table,
    binding: &'a Sexp,
    rest: &'a [Sexp],
    body: &'a [Sexp],
    at: usize,
    list_at: usize,
) -> Result<Turn<'a>, ReadError>
    ensures turns { (ts : List Tree) (s : StateId) → AreThere ts scope → Turns bytes.now s.scopes (1 + (1 + (weight (form_of bytes.now binding.now) + weights (forms_of bytes.now rest.now) + weights (forms_of bytes.now body.now)))) ts s (bind_rest (scopes_in ts s.scopes) at list_at (forms_of bytes.now body.now) (more (form_of bytes.now binding.now) (forms_of bytes.now rest.now)) (symbols_in ts scope) (seen ts s)) result }
{
    match new_name(bytes, &scope, binding, list_at) {
        Ok(NewName { name, value, place }) => Ok(Turn::Down {
            frame: Frame::Bindings(Bindings {
                at,
                list_at,
                name,
                scope,
                rest,
                body,
            }),
            sexp: value,
            at: place,
        }),
        Err(fault) => Err(fault),
    }
}

/// A name to bind, and the s-expression of its term in the list at a place.
pub(crate) struct NewName<'a> {
    pub name: &'a [u8],
    pub value: &'a Sexp,
    pub place: usize,
}

/// The name and the term of a binding in the list at the place `at`.
fn new_name<'a>(
    bytes: &'a [u8],
    scope: &Table,
    binding: &'a Sexp,
    at: usize,
) -> Result<NewName<'a>, ReadError>
    ensures { NewNames bytes.now (form_of bytes.now binding.now) at scope.now result }
{
    match pair(binding, at) {
        Ok(Binding { name, value, place }) => match bound_name(bytes, scope, place, name) {
            Ok(name) => Ok(NewName { name, value, place }),
            Err(fault) => Err(fault),
        },
        Err(fault) => Err(fault),
    }
}

/// Binds a name to the term that is there for it, and goes on behind the binding.
pub(crate) fn resume_binding<'a>(
    alloc: Global,
    bytes: &'a [u8],
    bindings: Bindings<'a>,
    id: TermId,
    state: &mut State,
) -> Result<Turn<'a>, ReadError>
    requires new { lookup (bytes_eq bindings.name.now) bindings.scope ≡ None }
    ensures turns { (ts : List Tree) → AreThere ts bindings.entry.scope → Has ts id → Turns bytes.now state.old.scopes (1 + (1 + (weights (forms_of bytes.now bindings.entry.rest.now) + weights (forms_of bytes.now bindings.entry.body.now)))) ts state.new (after (annotated.bind bindings.entry.name.now (tree_at ts id)) (λ symbol. bind_rest (scopes_in ts state.old.scopes) bindings.entry.at bindings.entry.list_at (forms_of bytes.now bindings.entry.body.now) (forms_of bytes.now bindings.entry.rest.now) (symbols_in ts bindings.entry.scope ++ symbol ∷ [])) (seen ts state.old)) result }
    ensures goes { (ts : List Tree) → AreThere ts bindings.entry.scope → Has ts id → IsIn ts state.old → Goes ts state.old ts state.new }
{
    let Bindings {
        at,
        list_at,
        name,
        mut scope,
        rest,
        body,
    } = bindings;
    bind(alloc, name, id, &mut scope, state)?;
    next_binding(bytes, scope, rest, body, at, list_at, state)
}
