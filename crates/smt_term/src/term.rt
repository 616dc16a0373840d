//! The term that an s-expression spells, by a stack of the forms that wait for terms inside them.
ghost use Rattle.std.specs.Prelude.{◌≡◌, IfOk, OnOk};
ghost use Rattle.qterm.specs.Store.{Has, tree_at};
ghost use Rattle.strat_text.specs.Form.{form_of};
ghost use Rattle.smt_names.specs.Given.{IsIn, Gives, Goes, scopes_in, seen};
ghost use Rattle.smt_term.specs.Frames.{weight};
ghost use Rattle.smt_term.specs.Term as spec;
ghost use Rattle.smt_term.specs.Turns.{HasTurn, turn_reads, turn_around, Turns};

use crate::frame::{Frame, Turn};
use crate::list::start;
use crate::stack::{last, step, turn_left};
use qterm::{Store, TermId};
use sexp_read::Sexp;
use smt_names::State;
use smt_words::ReadError;
use std::alloc::Global;

/// The plain term that an s-expression spells under the symbols and scopes of a state, or the first refusal. It stands in the
/// list at the place `at`.
///
/// The code doesn't recurse: each form that waits for a term inside it is a frame on the heap.
pub fn read_term(
    alloc: Global,
    bytes: &[u8],
    sexp: &Sexp,
    at: usize,
    state: &mut State,
    store: &mut Store,
) -> Result<TermId, ReadError>
    requires there { IsIn store.old state.old }
    ensures read { Gives (tree_at store.new) store.new state.new result (spec.read_term (scopes_in store.old state.old.scopes) (form_of bytes.now sexp.now) at (seen store.old state.old)) }
    ensures has { IfOk result (Has store.new) }
    ensures scopes { OnOk result (state.new.scopes ≡ state.old.scopes) }
    ensures goes { Goes store.old state.old store.new state.new }
{
    match start(alloc, bytes, sexp, at, state, store) {
        Ok(turn) => finish(alloc, bytes, turn, state, store),
        Err(fault) => Err(fault),
    }
}

/// The term that a turn reads.
fn finish<'a>(
    alloc: Global,
    bytes: &'a [u8],
    first: Turn<'a>,
    state: &mut State,
    store: &mut Store,
) -> Result<TermId, ReadError>
    requires there { IsIn store.old state.old }
    requires has { HasTurn store.old first }
    ensures read { Gives (tree_at store.new) store.new state.new result (turn_reads bytes.now store.old state.old first.entry) }
    ensures has { IfOk result (Has store.new) }
    ensures scopes { OnOk result (state.new.scopes ≡ turn_around bytes.now store.old first.entry state.old.scopes) }
    ensures goes { Goes store.old state.old store.new state.new }
{
    let mut stack: Vec<Frame> = Vec::new(alloc);
    let mut turn = first;
    loop {
        match step(alloc, bytes, turn, &mut stack, state, store) {
            Err(fault) => return Err(fault),
            Ok(next) => {
                if let Some(id) = last(&next) {
                    return Ok(id);
                }
                turn = turn_left(next);
            }
        }
    }
}
