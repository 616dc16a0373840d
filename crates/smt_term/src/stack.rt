//! The frames round what is read, on a stack.
ghost use Rattle.std.specs.Prelude.{◌≡◌, ◌+◌, ◌∷◌, All, OnOk, reverse};
ghost use Rattle.qterm.specs.Store.{Has, tree_at};
ghost use Rattle.smt_names.specs.Given.{IsIn, Goes, scopes_in, seen};
ghost use Rattle.smt_term.specs.declared.frame.Turn.TheVariants as turns;
ghost use Rattle.smt_term.specs.Frames.{around, left_in, with_term};
ghost use Rattle.smt_term.specs.Steps.{Steps, last_of, turn_of, turned};
ghost use Rattle.smt_term.specs.Turns.{IsFrame, HasTurn, Turns, frame_in};

use crate::annotated::resume_annotation;
use crate::argument::resume_application;
use crate::bindings::resume_binding;
use crate::body::resume_body;
use crate::frame::{Frame, Turn};
use crate::list::start;
use qterm::{Store, TermId};
use sexp_read::Sexp;
use smt_names::State;
use smt_words::ReadError;
use std::alloc::{AllocError, Global};

/// What a step comes to: the term of all, or a turn inside the frames.
#[derive(Drop)]
pub(crate) enum Next<'a> {
    Term(TermId),
    Turn(Turn<'a>),
}

/// The term of all, if that is there.
pub(crate) fn last<'a>(next: &Next<'a>) -> Option<TermId>
    ensures { result ≡ last_of next.now }
{
    match next {
        Next::Term(id) => Some(*id),
        Next::Turn(_) => None,
    }
}

/// The turn that is left, or the term of all as one.
pub(crate) fn turn_left<'a>(next: Next<'a>) -> Turn<'a>
    ensures { result ≡ turn_of next.entry }
{
    match next {
        Next::Term(id) => Turn::Done(id),
        Next::Turn(turn) => turn,
    }
}

/// One step: a term goes to the innermost frame, and an s-expression is begun inside one frame more.
pub(crate) fn step<'a>(
    alloc: Global,
    bytes: &'a [u8],
    turn: Turn<'a>,
    stack: &mut Vec<Frame<'a>>,
    state: &mut State,
    store: &mut Store,
) -> Result<Next<'a>, ReadError>
    requires there { IsIn store.old state.old }
    requires has { HasTurn store.old turn }
    requires frames { All (IsFrame store.old) (reverse stack.old.items) }
    ensures steps { Steps bytes.now store.old state.old turn.entry (reverse stack.old.items) store.new state.new (reverse stack.new.items) result }
    ensures goes { Goes store.old state.old store.new state.new }
{
    match turn {
        Turn::Done(id) => go_up(alloc, bytes, id, stack, state, store),
        Turn::Down { frame, sexp, at } => {
            go_down(alloc, bytes, frame, sexp, at, stack, state, store)
        }
    }
}

/// Hands a term to the innermost frame, or answers it where there is none.
fn go_up<'a>(
    alloc: Global,
    bytes: &'a [u8],
    id: TermId,
    stack: &mut Vec<Frame<'a>>,
    state: &mut State,
    store: &mut Store,
) -> Result<Next<'a>, ReadError>
    requires there { IsIn store.old state.old }
    requires has { Has store.old id }
    requires frames { All (IsFrame store.old) (reverse stack.old.items) }
    ensures steps { Steps bytes.now store.old state.old (turns.Done id) (reverse stack.old.items) store.new state.new (reverse stack.new.items) result }
    ensures goes { Goes store.old state.old store.new state.new }
{
    match stack.pop() {
        None => Ok(Next::Term(id)),
        Some(frame) => turned(resume(alloc, bytes, frame, id, state, store)),
    }
}

/// Begins an s-expression inside one frame more.
fn go_down<'a>(
    alloc: Global,
    bytes: &'a [u8],
    frame: Frame<'a>,
    sexp: &'a Sexp,
    at: usize,
    stack: &mut Vec<Frame<'a>>,
    state: &mut State,
    store: &mut Store,
) -> Result<Next<'a>, ReadError>
    requires there { IsIn store.old state.old }
    requires has { IsFrame store.old frame }
    requires frames { All (IsFrame store.old) (reverse stack.old.items) }
    ensures steps { Steps bytes.now store.old state.old (turns.Down frame.entry sexp.entry at) (reverse stack.old.items) store.new state.new (reverse stack.new.items) result }
    ensures goes { Goes store.old state.old store.new state.new }
{
    push(stack, frame)?;
    turned(start(alloc, bytes, sexp, at, state, store))
}

/// Puts a frame inside the others.
fn push<'a>(stack: &mut Vec<Frame<'a>>, frame: Frame<'a>) -> Result<(), AllocError>
    ensures { OnOk result (reverse stack.new.items ≡ frame.entry ∷ reverse stack.old.items) }
{
    stack.push(frame)?;
    Ok(())
}

/// A turn as what a step comes to.
fn turned<'a>(turn: Result<Turn<'a>, ReadError>) -> Result<Next<'a>, ReadError>
    ensures { result ≡ turned turn.entry }
{
    match turn {
        Ok(next) => Ok(Next::Turn(next)),
        Err(fault) => Err(fault),
    }
}

/// What a frame comes to with the term for which it waits.
fn resume<'a>(
    alloc: Global,
    bytes: &'a [u8],
    frame: Frame<'a>,
    id: TermId,
    state: &mut State,
    store: &mut Store,
) -> Result<Turn<'a>, ReadError>
    requires there { IsIn store.old state.old }
    requires frame { IsFrame store.old frame }
    requires has { Has store.old id }
    ensures turns { Turns bytes.now (around (frame_in bytes.now store.old frame.entry) state.old.scopes) (1 + left_in (frame_in bytes.now store.old frame.entry)) store.new state.new (with_term (scopes_in store.old state.old.scopes) (frame_in bytes.now store.old frame.entry) (tree_at store.old id) (seen store.old state.old)) result }
    ensures goes { Goes store.old state.old store.new state.new }
{
    match frame {
        Frame::Application(application) => {
            resume_application(alloc, bytes, application, id, state, store)
        }
        Frame::Bindings(bindings) => resume_binding(alloc, bytes, bindings, id, state),
        Frame::Body { at, rest } => resume_body(at, rest, id, state),
        Frame::Annotation { at, rest } => resume_annotation(alloc, bytes, at, rest, id, state),
    }
}
