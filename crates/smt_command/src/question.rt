//! Terms whose values are asked for.
ghost use Rattle.std.specs.Prelude.{◌≡◌, ◌++◌, ◌∷◌, [], ◌≤◌, length, List, map, IfOk, OnOk};
ghost use Rattle.qterm.specs.Tree.{Tree};
ghost use Rattle.strat_text.specs.Form.{forms_of};
ghost use Rattle.smt_words.specs.Command.{command_tree, asked_tree};
ghost use Rattle.smt_names.specs.Given.{IsIn, Gives, Goes, scopes_in, seen};
ghost use Rattle.smt_command.specs.Given.{Tells, HasTerms, AreAsked};
ghost use Rattle.smt_command.specs.Terms as spec;

use crate::argument::{bad, nothing};
use qterm::Store;
use sexp_read::Sexp;
use smt_names::{State, may_be_term, may_be_terms};
use smt_term::read_term;
use smt_words::{Asked, AskedTerms, Command, ReadError, What, refused};
use std::alloc::{AllocError, Global};

/// `(get-value (T ..))`
#[tactic(auto, unfolding(crate::specs::Terms::question))]
pub(crate) fn read_question(
    alloc: Global,
    bytes: &[u8],
    args: &[Sexp],
    at: usize,
    state: &mut State,
    store: &mut Store,
) -> Result<Command, ReadError>
    requires there { IsIn store.old state.old }
    ensures read { Gives (command_tree store.new) store.new state.new result (spec.question (scopes_in store.old state.old.scopes) bytes.now at args.now (seen store.old state.old)) }
    ensures in_store { IfOk result (HasTerms store.new) }
    ensures goes { Goes store.old state.old store.new state.new }
{
    match args {
        [] => Err(bad(at)),
        [row, rest @ ..] => match row {
            Sexp::Atom { .. } => Err(bad(at)),
            Sexp::List { items, start, .. } => {
                asked_row(
                    alloc,
                    bytes,
                    items.as_slice(),
                    *start,
                    rest,
                    at,
                    state,
                    store,
                )
            }
        },
    }
}

/// The terms in a list at a place, and nothing behind it.
fn asked_row(
    alloc: Global,
    bytes: &[u8],
    items: &[Sexp],
    place: usize,
    rest: &[Sexp],
    at: usize,
    state: &mut State,
    store: &mut Store,
) -> Result<Command, ReadError>
    requires there { IsIn store.old state.old }
    ensures read { Gives (command_tree store.new) store.new state.new result (spec.asked_row (scopes_in store.old state.old.scopes) bytes.now at place (forms_of bytes.now rest.now) items.now (seen store.old state.old)) }
    ensures in_store { IfOk result (HasTerms store.new) }
    ensures goes { Goes store.old state.old store.new state.new }
{
    match items {
        [] => Err(bad(at)),
        [_, ..] => {
            let asked = asked_terms(alloc, bytes, items, state, store)?;
            all_asked(bytes, items, place, rest, at, asked)
        }
    }
}

/// Each of the items was a term, and nothing stands behind them.
fn all_asked(
    bytes: &[u8],
    items: &[Sexp],
    place: usize,
    rest: &[Sexp],
    at: usize,
    asked: AskedTerms,
) -> Result<Command, ReadError>
    ensures read { (ts : List Tree) → Tells (command_tree ts) result (spec.all_asked at place (forms_of bytes.now items.now) (forms_of bytes.now rest.now) (map (asked_tree ts) asked)) }
    ensures in_store { (ts : List Tree) → AreAsked ts asked → IfOk result (HasTerms ts) }
{
    if !may_be_terms(bytes, items) {
        return Err(refused(What::BadShape, place));
    }
    nothing(bytes, rest, at)?;
    Ok(Command::GetValue(asked))
}

/// The items that may be terms, as terms.
fn asked_terms(
    alloc: Global,
    bytes: &[u8],
    items: &[Sexp],
    state: &mut State,
    store: &mut Store,
) -> Result<AskedTerms, ReadError>
    requires there { IsIn store.old state.old }
    ensures read { Gives (map (asked_tree store.new)) store.new state.new result (spec.asked_from (scopes_in store.old state.old.scopes) bytes.now items.now [] (seen store.old state.old)) }
    ensures has { IfOk result (AreAsked store.new) }
    ensures goes { Goes store.old state.old store.new state.new }
{
    let mut asked = Vec::new(alloc);
    for at in 0..items.len() {
        ask(alloc, bytes, &items[at], &mut asked, state, store)?;
    }
    Ok(AskedTerms::from_vec(asked))
}

/// One more term behind those so far, if it may be one.
fn ask(
    alloc: Global,
    bytes: &[u8],
    sexp: &Sexp,
    asked: &mut Vec<Asked>,
    state: &mut State,
    store: &mut Store,
) -> Result<(), ReadError>
    requires there { IsIn store.old state.old }
    requires asked { AreAsked store.old asked.old.items }
    ensures read { Gives (λ _. map (asked_tree store.new) asked.new.items) store.new state.new result (spec.asked_more (scopes_in store.old state.old.scopes) bytes.now sexp.now (map (asked_tree store.old) asked.old.items) (seen store.old state.old)) }
    ensures has { OnOk result (AreAsked store.new asked.new.items) }
    ensures scopes { OnOk result (state.new.scopes ≡ state.old.scopes) }
    ensures goes { Goes store.old state.old store.new state.new }
{
    if !may_be_term(bytes, sexp) {
        return Ok(());
    }
    let term = read_term(alloc, bytes, sexp, 0, state, store)?;
    let start = start_within(bytes, sexp);
    let end = end_within(bytes, sexp);
    push(asked, Asked { term, start, end })?;
    Ok(())
}

/// The place behind an s-expression, as far as it lies within the bytes.
fn end_within(bytes: &[u8], sexp: &Sexp) -> usize
    ensures { result ≡ spec.end_within bytes.now sexp.now }
{
    sexp.end().min(bytes.len())
}

/// The place of the first byte of an s-expression, as far as it lies within the bytes.
fn start_within(bytes: &[u8], sexp: &Sexp) -> usize
    ensures { result ≡ spec.start_within bytes.now sexp.now }
{
    sexp.start().min(end_within(bytes, sexp))
}

/// Puts a term behind the others.
fn push(asked: &mut Vec<Asked>, one: Asked) -> Result<(), AllocError>
    ensures { OnOk result (asked.new.items ≡ asked.old.items ++ one ∷ []) }
{
    asked.push(one)?;
    Ok(())
}
