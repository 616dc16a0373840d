//! The term in which the bindings of a `let` hold.
ghost use Rattle.std.specs.Prelude.{◌≡◌, ◌+◌, ◌∷◌, ℕ, List};
ghost use Rattle.qterm.specs.Tree.{Tree};
ghost use Rattle.qterm.specs.Store.{Has, tree_at};
ghost use Rattle.strat_text.specs.Form.{forms_of};
ghost use Rattle.smt_names.specs.Annotated.{only};
ghost use Rattle.smt_names.specs.Given.{IsIn, Goes, scopes_in, seen};
ghost use Rattle.smt_names.specs.Table.{AreThere, symbols_in};
ghost use Rattle.smt_names.specs.Text.{behind_first};
ghost use Rattle.smt_term.specs.Frames.{weights};
ghost use Rattle.smt_term.specs.Term as spec;
ghost use Rattle.smt_term.specs.Turns.{Turns};

use crate::frame::{Frame, Turn};
use qterm::TermId;
use sexp_read::Sexp;
use smt_names::{State, Table};
use smt_words::{ReadError, What, refused};

/// Begins the term in which the names of a scope are bound.
pub(crate) fn start_body<'a>(
    at: usize,
    scope: Table,
    body: &'a [Sexp],
    state: &mut State,
) -> Result<Turn<'a>, ReadError>
    ensures turns { (bytes : List ℕ) (ts : List Tree) → Turns bytes state.old.scopes (2 + weights (forms_of bytes body.now)) ts state.new (spec.read_body (symbols_in ts scope ∷ scopes_in ts state.old.scopes) (forms_of bytes body.now) at (seen ts state.old)) result }
    ensures goes { (ts : List Tree) → AreThere ts scope → IsIn ts state.old → Goes ts state.old ts state.new }
{
    match body {
        [] => Err(refused(What::BadShape, at)),
        [sexp, rest @ ..] => {
            state.scopes.enter(scope)?;
            Ok(Turn::Down {
                frame: Frame::Body { at, rest },
                sexp,
                at,
            })
        }
    }
}

/// Leaves the scope of a term that is there; nothing may stand behind it.
pub(crate) fn resume_body<'a>(
    at: usize,
    rest: &'a [Sexp],
    id: TermId,
    state: &mut State,
) -> Result<Turn<'a>, ReadError>
    ensures turns { (bytes : List ℕ) (ts : List Tree) → Has ts id → Turns bytes (behind_first state.old.scopes) 2 ts state.new (only at (forms_of bytes rest.now) (tree_at ts id) (seen ts state.old)) result }
    ensures goes { (ts : List Tree) → IsIn ts state.old → Goes ts state.old ts state.new }
{
    state.scopes.leave();
    if !rest.is_empty() {
        return Err(refused(What::BadShape, at));
    }
    Ok(Turn::Done(id))
}
