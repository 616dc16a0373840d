//! Commands by their words.
ghost use Rattle.std.specs.Prelude.{◌≡◌, ◌≤◌, List, IfOk};
ghost use Rattle.std.specs.Option.{option_copied};
ghost use Rattle.qterm.specs.Tree.{Tree};
ghost use Rattle.strat_text.specs.Form.{forms_of};
ghost use Rattle.smt_words.specs.Command.{command_tree};
ghost use Rattle.smt_names.specs.Given.{IsIn, Gives, Goes, scopes_in, seen};
ghost use Rattle.smt_names.specs.Table.{symbols_in};
ghost use Rattle.smt_command.specs.Given.{Tells, HasTerms};
ghost use Rattle.smt_command.specs.Reading as plain_spec;
ghost use Rattle.smt_command.specs.Terms as spec;

use crate::argument::{bad, only};
use crate::assertion::read_assertion;
use crate::declaration::{read_const, read_fun, read_logic};
use crate::definition::read_definition;
use crate::kind::{Kind, kind_of};
use crate::option::{read_get_info, read_option, read_set_info};
use crate::pushing::{read_pop, read_push};
use crate::question::read_question;
use crate::using::{read_echo, read_using};
use qterm::Store;
use sexp_read::Sexp;
use smt_names::{State, Table, name, place};
use smt_words::{Command, ReadError, What, Word, refused, word_named};
use std::alloc::Global;
use strat_text::ReducerName;

/// The command that an s-expression spells under the symbols of a state, where so many levels are open, or the first refusal:
/// first its word, then its arguments from left to right, then their number and kind.
#[tactic(auto, unfolding(crate::specs::Terms::read_sexp))]
pub(crate) fn read_sexp(
    alloc: Global,
    bytes: &[u8],
    sexp: &Sexp,
    levels: usize,
    reducers: Option<&[ReducerName]>,
    state: &mut State,
    store: &mut Store,
) -> Result<Command, ReadError>
    requires few { levels ≤ 65536 }
    requires there { IsIn store.old state.old }
    ensures read { Gives (command_tree store.new) store.new state.new result (spec.read_sexp (option_copied reducers.entry) (scopes_in store.old state.old.scopes) levels bytes.now sexp.now (seen store.old state.old)) }
    ensures in_store { IfOk result (HasTerms store.new) }
    ensures goes { Goes store.old state.old store.new state.new }
{
    match sexp {
        Sexp::Atom { start, .. } => Err(refused(What::UnknownCommand, *start)),
        Sexp::List { items, start, .. } => {
            read_items(
                alloc,
                bytes,
                items.as_slice(),
                *start,
                levels,
                reducers,
                state,
                store,
            )
        }
    }
}

/// A list as a command.
fn read_items(
    alloc: Global,
    bytes: &[u8],
    items: &[Sexp],
    at: usize,
    levels: usize,
    reducers: Option<&[ReducerName]>,
    state: &mut State,
    store: &mut Store,
) -> Result<Command, ReadError>
    requires few { levels ≤ 65536 }
    requires there { IsIn store.old state.old }
    ensures read { Gives (command_tree store.new) store.new state.new result (spec.read_items (option_copied reducers.entry) (scopes_in store.old state.old.scopes) levels bytes.now at items.now (seen store.old state.old)) }
    ensures in_store { IfOk result (HasTerms store.new) }
    ensures goes { Goes store.old state.old store.new state.new }
{
    match items {
        [] => Err(refused(What::UnknownCommand, at)),
        [first, args @ ..] => match name(bytes, first) {
            None => Err(refused(What::UnknownCommand, at)),
            Some(text) => match word_named(text) {
                None => Err(refused(What::UnknownCommand, place(bytes, first))),
                Some(word) => {
                    by_word(alloc, bytes, word, args, at, levels, reducers, state, store)
                }
            },
        },
    }
}

/// A command by its word.
fn by_word(
    alloc: Global,
    bytes: &[u8],
    word: Word,
    args: &[Sexp],
    at: usize,
    levels: usize,
    reducers: Option<&[ReducerName]>,
    state: &mut State,
    store: &mut Store,
) -> Result<Command, ReadError>
    requires few { levels ≤ 65536 }
    requires there { IsIn store.old state.old }
    ensures read { Gives (command_tree store.new) store.new state.new result (spec.command_by (option_copied reducers.entry) (scopes_in store.old state.old.scopes) levels bytes.now word at args.now (seen store.old state.old)) }
    ensures in_store { IfOk result (HasTerms store.new) }
    ensures goes { Goes store.old state.old store.new state.new }
{
    match kind_of(word) {
        Kind::Assertion => read_assertion(alloc, bytes, args, at, state, store),
        Kind::Definition => read_definition(alloc, bytes, args, at, state, store),
        Kind::Question => read_question(alloc, bytes, args, at, state, store),
        Kind::Plain => {
            plain(
                alloc,
                bytes,
                word,
                args,
                at,
                levels,
                reducers,
                &state.symbols,
            )
        }
    }
}

/// A command without terms.
#[tactic(auto, unfolding(crate::specs::Reading::plain_command))]
fn plain(
    alloc: Global,
    bytes: &[u8],
    word: Word,
    args: &[Sexp],
    at: usize,
    levels: usize,
    reducers: Option<&[ReducerName]>,
    symbols: &Table,
) -> Result<Command, ReadError>
    requires few { levels ≤ 65536 }
    ensures { (ts : List Tree) → Tells (command_tree ts) result (plain_spec.plain_command (option_copied reducers.entry) (symbols_in ts symbols.now) levels word at (forms_of bytes.now args.now)) }
{
    match word {
        Word::SetLogic => read_logic(bytes, args, at),
        Word::SetOption => read_option(bytes, args, at),
        Word::SetInfo => read_set_info(bytes, args, at),
        Word::DeclareConst => read_const(alloc, bytes, symbols, args, at),
        Word::DeclareFun => read_fun(alloc, bytes, symbols, args, at),
        Word::Push => read_push(bytes, args, at, levels),
        Word::Pop => read_pop(bytes, args, at, levels),
        Word::CheckSat => only(bytes, args, at, Command::CheckSat),
        Word::CheckSatUsing => read_using(alloc, bytes, args, at, true, reducers),
        Word::Apply => read_using(alloc, bytes, args, at, false, reducers),
        Word::GetModel => only(bytes, args, at, Command::GetModel),
        Word::GetProof => only(bytes, args, at, Command::GetProof),
        Word::GetInfo => read_get_info(bytes, args, at),
        Word::Echo => read_echo(alloc, bytes, args, at),
        Word::ResetAssertions => only(bytes, args, at, Command::ResetAssertions),
        Word::Exit => only(bytes, args, at, Command::Exit),
        Word::Assert | Word::DefineFun | Word::GetValue => Err(bad(at)),
    }
}
