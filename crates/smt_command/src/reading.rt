//! A script read from its bytes.
ghost use Rattle.std.specs.Prelude.{◌≡◌, ◌≤◌, List, length, IfOk, All};
ghost use Rattle.std.specs.Option.{option_copied};
ghost use Rattle.qterm.specs.Tree.{Tree};
ghost use Rattle.qterm.specs.Store.{Extends};
ghost use Rattle.smt_words.specs.Command.{command_tree, script_tree};
ghost use Rattle.smt_names.specs.Table.{AreThere};
ghost use Rattle.term_limits.specs.Limits.{IsCounted};
ghost use Rattle.smt_command.specs.Change.{in_force};
ghost use Rattle.smt_command.specs.Given.{HasTerms, IsCommandIn, IsFound};
ghost use Rattle.smt_command.specs.Laws.{AreLawful};
ghost use Rattle.smt_command.specs.Script as spec;

use crate::read::read_command;
use crate::symbols::Symbols;
use qterm::Store;
use sexp_read::{BadText, Next, Sexp, next_sexp};
use smt_words::{Command, Placed, ReadError, Script, ScriptError, What};
use sqlite_items::Items;
use std::alloc::{AllocError, Global};
use strat_text::ReducerName;

/// What stands at a place: the end of the script with its fault, if any, or a command and the place behind it.
#[derive(Drop)]
pub(crate) enum Found {
    Ends(Option<ScriptError>),
    Goes(Placed, usize),
}

/// The commands that the bytes spell, up to the first `(exit)`, the end, or the first fault, with their terms in the store. Where
/// names of reducers are given, a strategy may name these alone. No term is deeper than 1,000, and those of a command have no more than
/// 1,048,576 distinct subterms together with the assertions in force.
///
/// The terms of the store stay. After want of memory there may be more than before.
pub fn commands(
    alloc: Global,
    bytes: &[u8],
    store: &mut Store,
    reducers: Option<&[ReducerName]>,
) -> Result<Script, AllocError>
    ensures script { IfOk result (λ script. script_tree store.new script ≡ spec.script_of (option_copied reducers.entry) bytes.now) }
    ensures within { IfOk result (λ script. All (λ placed. IsCommandIn store.new bytes.now placed.command) script.commands) }
    ensures lawful { AreLawful bytes.now 0 (spec.script_of (option_copied reducers.entry) bytes.now).commands }
    ensures store { Extends store.old store.new }
{
    read(alloc, bytes, store, reducers)
}

#[tactic(auto, unfolding(crate::specs::Script::script_of))]
fn read(
    alloc: Global,
    bytes: &[u8],
    store: &mut Store,
    reducers: Option<&[ReducerName]>,
) -> Result<Script, AllocError>
    ensures script { IfOk result (λ script. script_tree store.new script ≡ spec.script_of (option_copied reducers.entry) bytes.now) }
    ensures within { IfOk result (λ script. All (λ placed. HasTerms store.new placed.command) script.commands) }
    ensures store { Extends store.old store.new }
{
    let mut commands = Items::new(alloc);
    let mut symbols = Symbols::new(alloc);
    let mut at = 0;
    while at < bytes.len() {
        let next = next_sexp(alloc, bytes, at)?;
        match stands_at(alloc, bytes, next, reducers, &mut symbols, store)? {
            Found::Ends(fault) => return Ok(Script { commands, fault }),
            Found::Goes(placed, end) => {
                let ends = is_exit(&placed.command);
                commands.push(placed)?;
                if ends {
                    return Ok(Script {
                        commands,
                        fault: None,
                    });
                }
                at = end;
            }
        }
    }
    Ok(Script {
        commands,
        fault: None,
    })
}

/// What an answer of the reader means for the script.
fn stands_at(
    alloc: Global,
    bytes: &[u8],
    next: Next,
    reducers: Option<&[ReducerName]>,
    symbols: &mut Symbols,
    store: &mut Store,
) -> Result<Found, AllocError>
    requires few { length symbols.old.levels ≤ 65536 }
    requires there { AreThere store.old symbols.old.state.symbols }
    requires counted { IsCounted store.old symbols.old.asserts }
    ensures found { IfOk result (IsFound store.new symbols.new (spec.first_of (option_copied reducers.entry) bytes.now (in_force store.old symbols.old) next)) }
    ensures few { length symbols.new.levels ≤ 65536 }
    ensures there { AreThere store.new symbols.new.state.symbols }
    ensures extends { Extends store.old store.new }
{
    match next {
        Next::End => Ok(Found::Ends(None)),
        Next::Bad { place, what } => Ok(Found::Ends(Some(ScriptError {
            what: fault(what),
            place,
        }))),
        Next::Item(sexp, end) => {
            let found = command_at(alloc, bytes, &sexp, end, reducers, symbols, store)?;
            Ok(found)
        }
    }
}

/// What a fault of the text is.
fn fault(what: BadText) -> What
    ensures { result ≡ spec.fault_of what }
{
    match what {
        BadText::Lexical => What::Lexical,
        BadText::Unclosed => What::Unclosed,
        BadText::TooDeep => What::TooDeep,
    }
}

/// The command that an s-expression spells, which ends before a place.
fn command_at(
    alloc: Global,
    bytes: &[u8],
    sexp: &Sexp,
    end: usize,
    reducers: Option<&[ReducerName]>,
    symbols: &mut Symbols,
    store: &mut Store,
) -> Result<Found, AllocError>
    requires few { length symbols.old.levels ≤ 65536 }
    requires there { AreThere store.old symbols.old.state.symbols }
    requires counted { IsCounted store.old symbols.old.asserts }
    ensures found { IfOk result (IsFound store.new symbols.new (spec.command_at (option_copied reducers.entry) bytes.now (in_force store.old symbols.old) sexp.now end)) }
    ensures few { length symbols.new.levels ≤ 65536 }
    ensures there { AreThere store.new symbols.new.state.symbols }
    ensures extends { Extends store.old store.new }
{
    let place = sexp.start();
    match read_command(alloc, bytes, sexp, reducers, symbols, store) {
        Ok(command) => Ok(Found::Goes(Placed { command, place }, end)),
        Err(ReadError::Refused(error)) => Ok(Found::Ends(Some(error))),
        Err(ReadError::Memory(cause)) => Err(cause),
    }
}

fn is_exit(command: &Command) -> bool
    ensures { (ts : List Tree) → result ≡ spec.is_exit (command_tree ts command.now) }
{
    matches!(command, Command::Exit)
}
