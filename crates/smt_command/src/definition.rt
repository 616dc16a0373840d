//! Definitions of names, with parameters or without.
ghost use Rattle.std.specs.Prelude.{◌≡◌, [], ◌∷◌, ◌++◌, List, IfOk, OnOk, OnErr};
ghost use Rattle.qterm.specs.Tree.{Tree};
ghost use Rattle.qterm.specs.Store.{Has, tree_at};
ghost use Rattle.strat_text.specs.Form.{form_of, forms_of};
ghost use Rattle.smt_words.specs.Command.{command_tree};
ghost use Rattle.smt_names.specs.Table.{symbols_in};
ghost use Rattle.smt_names.specs.Given.{IsIn, Gives, Goes, scopes_in, seen};
ghost use Rattle.smt_command.specs.Given.{Tells, HasTerms};
ghost use Rattle.smt_command.specs.GivenParameters.{parameters_in, AreParametersIn};
ghost use Rattle.smt_command.specs.Terms as spec;

use crate::argument::{bad, nothing};
use crate::declaration::read_sort;
use crate::parameter::{Parameters, is_function, meaning_over, read_parameters};
use qterm::{Sort, Store, TermId};
use sexp_read::Sexp;
use smt_names::{Params, State, Table, define, new_name, place};
use smt_term::read_term;
use smt_theory::same_sort;
use smt_words::{Command, ReadError, What, refused};
use std::alloc::{AllocError, Global};

/// `(define-fun NAME (P ..) SORT T)`: from here on the name stands for the term, or for the function of the parameters.
pub(crate) fn read_definition(
    alloc: Global,
    bytes: &[u8],
    args: &[Sexp],
    at: usize,
    state: &mut State,
    store: &mut Store,
) -> Result<Command, ReadError>
    requires there { IsIn store.old state.old }
    ensures read { Gives (command_tree store.new) store.new state.new result (spec.definition (scopes_in store.old state.old.scopes) at (forms_of bytes.now args.now) (seen store.old state.old)) }
    ensures in_store { IfOk result (HasTerms store.new) }
    ensures goes { Goes store.old state.old store.new state.new }
{
    match args {
        [] => Err(bad(at)),
        [name, rest @ ..] => {
            is_new(bytes, &state.symbols, at, name)?;
            behind_name(alloc, bytes, name, rest, at, state, store)
        }
    }
}

/// A new name.
fn is_new(bytes: &[u8], symbols: &Table, at: usize, sexp: &Sexp) -> Result<(), ReadError>
    ensures { (ts : List Tree) → Tells (λ done. done) result (spec.is_new (symbols_in ts symbols.now) at (form_of bytes.now sexp.now)) }
{
    match new_name(bytes, symbols, at, sexp) {
        Ok(_) => Ok(()),
        Err(error) => Err(error),
    }
}

/// What stands behind the name: parameters first.
fn behind_name(
    alloc: Global,
    bytes: &[u8],
    name: &Sexp,
    rest: &[Sexp],
    at: usize,
    state: &mut State,
    store: &mut Store,
) -> Result<Command, ReadError>
    requires there { IsIn store.old state.old }
    ensures read { Gives (command_tree store.new) store.new state.new result (spec.behind_name (scopes_in store.old state.old.scopes) at (form_of bytes.now name.now) (forms_of bytes.now rest.now) (seen store.old state.old)) }
    ensures in_store { IfOk result (HasTerms store.new) }
    ensures goes { Goes store.old state.old store.new state.new }
{
    match rest {
        [] => Err(bad(at)),
        [parameters, rest @ ..] => {
            let parameters = read_parameters(alloc, bytes, parameters, at, &state.symbols, store)?;
            with_parameters(alloc, bytes, name, parameters, rest, at, state, store)
        }
    }
}

/// What stands behind the parameters, which the body sees.
fn with_parameters(
    alloc: Global,
    bytes: &[u8],
    name: &Sexp,
    parameters: Parameters,
    rest: &[Sexp],
    at: usize,
    state: &mut State,
    store: &mut Store,
) -> Result<Command, ReadError>
    requires there { IsIn store.old state.old }
    requires parameters { AreParametersIn store.old parameters }
    ensures read { Gives (command_tree store.new) store.new state.new result (spec.with_parameters (scopes_in store.old state.old.scopes) at (form_of bytes.now name.now) (forms_of bytes.now rest.now) (parameters_in store.old parameters) (seen store.old state.old)) }
    ensures in_store { IfOk result (HasTerms store.new) }
    ensures goes { Goes store.old state.old store.new state.new }
{
    let Parameters { scope, names, .. } = parameters;
    let in_body = is_function(&names);
    open_body(scope, in_body, state)?;
    sorted(alloc, bytes, name, names, rest, at, state, store)
}

/// Goes into a body, which sees a scope more.
fn open_body(scope: Table, in_body: bool, state: &mut State) -> Result<(), AllocError>
    ensures opened { OnOk result (state.new ≡ record state.old { scopes = scope ∷ state.old.scopes; in_body = in_body }) }
    ensures err { OnErr result (state.new ≡ state.old) }
{
    state.scopes.enter(scope)?;
    state.in_body = in_body;
    Ok(())
}

/// What stands behind the parameters: a sort first.
fn sorted(
    alloc: Global,
    bytes: &[u8],
    name: &Sexp,
    params: Params,
    rest: &[Sexp],
    at: usize,
    state: &mut State,
    store: &mut Store,
) -> Result<Command, ReadError>
    requires there { IsIn store.old state.old }
    ensures read { Gives (command_tree store.new) store.new state.new result (spec.sorted (scopes_in store.old state.old.scopes) at (form_of bytes.now name.now) params (forms_of bytes.now rest.now) (seen store.old state.old)) }
    ensures in_store { IfOk result (HasTerms store.new) }
    ensures goes { Goes store.old state.old store.new state.new }
{
    match rest {
        [] => Err(bad(at)),
        [sort, rest @ ..] => {
            let sort = read_sort(bytes, sort, at)?;
            meant(alloc, bytes, name, params, sort, rest, at, state, store)
        }
    }
}

/// What stands behind the sort: a term.
fn meant(
    alloc: Global,
    bytes: &[u8],
    name: &Sexp,
    params: Params,
    sort: Sort,
    rest: &[Sexp],
    at: usize,
    state: &mut State,
    store: &mut Store,
) -> Result<Command, ReadError>
    requires there { IsIn store.old state.old }
    ensures read { Gives (command_tree store.new) store.new state.new result (spec.meant (scopes_in store.old state.old.scopes) at (form_of bytes.now name.now) params sort (forms_of bytes.now rest.now) (seen store.old state.old)) }
    ensures in_store { IfOk result (HasTerms store.new) }
    ensures goes { Goes store.old state.old store.new state.new }
{
    match rest {
        [] => Err(bad(at)),
        [form, rest @ ..] => {
            let id = read_term(alloc, bytes, form, at, state, store)?;
            let place = place(bytes, form);
            defined(
                alloc, bytes, name, params, sort, id, place, rest, at, state, store,
            )
        }
    }
}

/// A term of the sort, and nothing behind it: the name stands for it, or for the function that has it as its body.
fn defined(
    alloc: Global,
    bytes: &[u8],
    name: &Sexp,
    params: Params,
    sort: Sort,
    id: TermId,
    place: usize,
    rest: &[Sexp],
    at: usize,
    state: &mut State,
    store: &Store,
) -> Result<Command, ReadError>
    requires there { IsIn store.now state.old }
    requires has { Has store.now id }
    ensures read { Gives (command_tree store.now) store.now state.new result (spec.defined at (form_of bytes.now name.now) params sort place (forms_of bytes.now rest.now) (tree_at store.now id) (seen store.now state.old)) }
    ensures in_store { IfOk result (HasTerms store.now) }
    ensures goes { Goes store.now state.old store.now state.new }
{
    if !same_sort(store.sort(id), sort) {
        return Err(refused(What::BadSort, place));
    }
    nothing(bytes, rest, at)?;
    define(alloc, bytes, name, at, meaning_over(params, id), state)?;
    count(id, state)?;
    Ok(Command::Define)
}

/// The term counts from here on.
fn count(id: TermId, state: &mut State) -> Result<(), AllocError>
    ensures counted { OnOk result (state.new ≡ record state.old { bound = state.old.bound ++ id ∷ [] }) }
    ensures err { OnErr result (state.new ≡ state.old) }
    ensures goes { (ts : List Tree) → Has ts id → IsIn ts state.old → Goes ts state.old ts state.new }
{
    state.bound.push(id)?;
    Ok(())
}
