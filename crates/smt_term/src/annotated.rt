//! Annotated terms.
ghost use Rattle.std.specs.Prelude.{◌≡◌, ◌+◌, ℕ, List};
ghost use Rattle.qterm.specs.Tree.{Tree};
ghost use Rattle.qterm.specs.Store.{Has, tree_at};
ghost use Rattle.strat_text.specs.Form.{forms_of};
ghost use Rattle.smt_names.specs.Annotated.{some_attributes};
ghost use Rattle.smt_names.specs.declared.state.State.{State as StateId};
ghost use Rattle.smt_names.specs.Given.{IsIn, Goes, scopes_in, seen};
ghost use Rattle.smt_term.specs.Frames.{weights};
ghost use Rattle.smt_term.specs.Term as spec;
ghost use Rattle.smt_term.specs.Turns.{Turns};

use crate::frame::{Frame, Turn};
use qterm::TermId;
use sexp_read::Sexp;
use smt_names::{State, annotate};
use smt_words::{ReadError, What, refused};
use std::alloc::Global;

/// Begins what stands behind `!`, in the list at the place `at`.
pub(crate) fn start_annotated<'a>(args: &'a [Sexp], at: usize) -> Result<Turn<'a>, ReadError>
    ensures { (bytes : List ℕ) (ts : List Tree) (s : StateId) → Turns bytes s.scopes (2 + weights (forms_of bytes args.now)) ts s (spec.read_annotated (scopes_in ts s.scopes) (forms_of bytes args.now) at (seen ts s)) result }
{
    match args {
        [] => Err(refused(What::BadShape, at)),
        [sexp, rest @ ..] => Ok(Turn::Down {
            frame: Frame::Annotation { at, rest },
            sexp,
            at,
        }),
    }
}

/// Gives a term that is there the names that its attributes have for it.
pub(crate) fn resume_annotation<'a>(
    alloc: Global,
    bytes: &'a [u8],
    at: usize,
    rest: &'a [Sexp],
    id: TermId,
    state: &mut State,
) -> Result<Turn<'a>, ReadError>
    ensures turns { (ts : List Tree) → Has ts id → Turns bytes.now state.old.scopes 2 ts state.new (some_attributes at (forms_of bytes.now rest.now) (tree_at ts id) (seen ts state.old)) result }
    ensures goes { (ts : List Tree) → Has ts id → IsIn ts state.old → Goes ts state.old ts state.new }
{
    match annotate(alloc, bytes, rest, at, id, state) {
        Ok(()) => Ok(Turn::Done(id)),
        Err(fault) => Err(fault),
    }
}
