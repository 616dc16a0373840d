//! Arguments, from left to right.
ghost use Rattle.std.specs.Prelude.{◌≡◌, ◌+◌, ◌++◌, ◌∷◌, ◌≤◌, [], All, IfOk, OnOk};
ghost use Rattle.qterm.specs.Store.{Has, tree_at, trees_of};
ghost use Rattle.strat_text.specs.Form.{forms_of};
ghost use Rattle.smt_names.specs.Atoms.{Scopes};
ghost use Rattle.smt_names.specs.Given.{IsIn, Gives, Goes, scopes_in, seen};
ghost use Rattle.smt_names.specs.Reading.{State as States};
ghost use Rattle.smt_term.specs.Callee.{over_all};
ghost use Rattle.smt_term.specs.Frames.{IsTermFirst, over_rest, weights};
ghost use Rattle.smt_term.specs.Term as spec;
ghost use Rattle.smt_term.specs.Turns.{Turns, callee_in};

use crate::frame::{Application, Callee, Frame, Turn};
use crate::list::done;
use qterm::{Store, TermId};
use sexp_read::Sexp;
use smt_names::{State, apply, call, may_be_term};
use smt_words::{ReadError, What, refused};
use std::alloc::{AllocError, Global};

/// Begins the arguments of a callee.
pub(crate) fn start_application<'a>(
    alloc: Global,
    bytes: &'a [u8],
    callee: Callee<'a>,
    args: &'a [Sexp],
    at: usize,
    state: &mut State,
    store: &mut Store,
) -> Result<Turn<'a>, ReadError>
    requires there { IsIn store.old state.old }
    ensures turns { Turns bytes.now state.old.scopes (1 + (1 + weights (forms_of bytes.now args.now))) store.new state.new (over_rest (scopes_in store.old state.old.scopes) (callee_in callee.entry) at (forms_of bytes.now args.now) (forms_of bytes.now args.now) [] (seen store.old state.old)) result }
    ensures goes { Goes store.old state.old store.new state.new }
{
    let ids = Vec::new(alloc);
    next_argument(
        alloc,
        bytes,
        Application {
            callee,
            at,
            args,
            rest: args,
            ids,
        },
        state,
        store,
    )
}

/// Goes on behind an argument whose term is there.
pub(crate) fn resume_application<'a>(
    alloc: Global,
    bytes: &'a [u8],
    application: Application<'a>,
    id: TermId,
    state: &mut State,
    store: &mut Store,
) -> Result<Turn<'a>, ReadError>
    requires there { IsIn store.old state.old }
    requires ids { All (Has store.old) application.ids.items }
    requires has { Has store.old id }
    ensures turns { Turns bytes.now state.old.scopes (1 + (1 + weights (forms_of bytes.now application.entry.rest.now))) store.new state.new (over_rest (scopes_in store.old state.old.scopes) (callee_in application.entry.callee) application.entry.at (forms_of bytes.now application.entry.args.now) (forms_of bytes.now application.entry.rest.now) (trees_of store.old application.entry.ids.items ++ tree_at store.old id ∷ []) (seen store.old state.old)) result }
    ensures goes { Goes store.old state.old store.new state.new }
{
    let Application {
        callee,
        at,
        args,
        rest,
        mut ids,
    } = application;
    push(&mut ids, id)?;
    next_argument(
        alloc,
        bytes,
        Application {
            callee,
            at,
            args,
            rest,
            ids,
        },
        state,
        store,
    )
}

/// Puts an id behind the others.
fn push(ids: &mut Vec<TermId>, id: TermId) -> Result<(), AllocError>
    ensures { OnOk result (ids.new.items ≡ ids.old.items ++ id ∷ []) }
{
    ids.push(id)?;
    Ok(())
}

/// Begins the next argument that may be a term, or applies the callee where none is left.
fn next_argument<'a>(
    alloc: Global,
    bytes: &'a [u8],
    application: Application<'a>,
    state: &mut State,
    store: &mut Store,
) -> Result<Turn<'a>, ReadError>
    requires there { IsIn store.old state.old }
    requires ids { All (Has store.old) application.ids.items }
    ensures turns { Turns bytes.now state.old.scopes (1 + (1 + weights (forms_of bytes.now application.entry.rest.now))) store.new state.new (over_rest (scopes_in store.old state.old.scopes) (callee_in application.entry.callee) application.entry.at (forms_of bytes.now application.entry.args.now) (forms_of bytes.now application.entry.rest.now) (trees_of store.old application.entry.ids.items) (seen store.old state.old)) result }
    ensures goes { Goes store.old state.old store.new state.new }
{
    let Application {
        callee,
        at,
        args,
        rest,
        ids,
    } = application;
    match from_term(bytes, rest) {
        [] => done(applied(alloc, bytes, callee, args, at, &ids, state, store)),
        [sexp, behind @ ..] => Ok(Turn::Down {
            frame: Frame::Application(Application {
                callee,
                at,
                args,
                rest: behind,
                ids,
            }),
            sexp,
            at: 0,
        }),
    }
}

/// A callee over the terms of its arguments.
fn applied(
    alloc: Global,
    bytes: &[u8],
    callee: Callee,
    args: &[Sexp],
    at: usize,
    ids: &[TermId],
    state: &mut State,
    store: &mut Store,
) -> Result<TermId, ReadError>
    requires there { IsIn store.old state.old }
    requires has { All (Has store.old) ids.now }
    ensures read { Gives (tree_at store.new) store.new state.new result (over_all (callee_in callee.entry) at (forms_of bytes.now args.now) (trees_of store.old ids.now) (seen store.old state.old)) }
    ensures has { IfOk result (Has store.new) }
    ensures scopes { state.new.scopes ≡ state.old.scopes }
    ensures goes { Goes store.old state.old store.new state.new }
{
    match callee {
        Callee::Nothing => Err(refused(What::BadShape, at)),
        Callee::Operator(operator) => apply(alloc, bytes, operator, args, at, ids, store),
        Callee::Function(name) => call(alloc, bytes, name, args, at, ids, state, store),
    }
}

/// The arguments from the first one on that may be a term.
fn from_term<'a>(bytes: &[u8], args: &'a [Sexp]) -> &'a [Sexp]
    ensures reads { (scopes : Scopes) (s : States) → spec.read_args scopes (forms_of bytes.now args.now) s ≡ spec.read_args scopes (forms_of bytes.now result.now) s }
    ensures term { IsTermFirst (forms_of bytes.now result.now) }
    ensures fewer { weights (forms_of bytes.now result.now) ≤ weights (forms_of bytes.now args.now) }
{
    let mut at = 0;
    while at < args.len() && !may_be_term(bytes, &args[at]) {
        at += 1;
    }
    &args[at..]
}
