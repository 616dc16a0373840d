//! Assertions.
ghost use Rattle.std.specs.Prelude.{◌≡◌, IfOk};
ghost use Rattle.qterm.specs.declared.name.Sort.TheVariants.{Bool};
ghost use Rattle.qterm.specs.Store.{Has, tree_at};
ghost use Rattle.strat_text.specs.Form.{forms_of};
ghost use Rattle.smt_theory.specs.Sorts.{same_sort};
ghost use Rattle.smt_words.specs.Command.{command_tree};
ghost use Rattle.smt_names.specs.Given.{IsIn, Gives, Goes, scopes_in, seen};
ghost use Rattle.smt_command.specs.Given.{Tells, HasTerms};
ghost use Rattle.smt_command.specs.Terms as spec;

use crate::argument::{bad, nothing};
use qterm::{Sort, Store, TermId};
use sexp_read::Sexp;
use smt_names::{State, place};
use smt_term::read_term;
use smt_words::{Command, ReadError, What, refused};
use std::alloc::Global;

/// `(assert F)`
pub(crate) fn read_assertion(
    alloc: Global,
    bytes: &[u8],
    args: &[Sexp],
    at: usize,
    state: &mut State,
    store: &mut Store,
) -> Result<Command, ReadError>
    requires there { IsIn store.old state.old }
    ensures read { Gives (command_tree store.new) store.new state.new result (spec.assertion (scopes_in store.old state.old.scopes) at (forms_of bytes.now args.now) (seen store.old state.old)) }
    ensures in_store { IfOk result (HasTerms store.new) }
    ensures goes { Goes store.old state.old store.new state.new }
{
    match args {
        [] => Err(bad(at)),
        [form, rest @ ..] => {
            let id = read_term(alloc, bytes, form, at, state, store)?;
            formula(bytes, id, place(bytes, form), rest, at, store)
        }
    }
}

/// A formula, and nothing behind it.
fn formula(
    bytes: &[u8],
    id: TermId,
    place: usize,
    rest: &[Sexp],
    at: usize,
    store: &Store,
) -> Result<Command, ReadError>
    requires has { Has store.now id }
    ensures read { Tells (command_tree store.now) result (spec.formula at place (forms_of bytes.now rest.now) (tree_at store.now id)) }
    ensures in_store { IfOk result (HasTerms store.now) }
{
    if !is_bool(store.sort(id)) {
        return Err(refused(What::BadSort, place));
    }
    nothing(bytes, rest, at)?;
    Ok(Command::Assert(id))
}

fn is_bool(sort: Sort) -> bool
    ensures { result ≡ same_sort sort Bool }
{
    matches!(sort, Sort::Bool)
}
