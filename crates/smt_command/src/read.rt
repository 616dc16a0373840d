//! Commands with what they change.
ghost use Rattle.std.specs.Prelude.{◌≡◌, ◌≤◌, ◌++◌, All, length, OnOk, OnErr, IfOk};
ghost use Rattle.std.specs.Option.{option_copied};
ghost use Rattle.qterm.specs.Store.{Extends, Has, trees_of};
ghost use Rattle.smt_words.specs.Command.{command_tree};
ghost use Rattle.smt_names.specs.Table.{AreThere, symbols_in};
ghost use Rattle.smt_names.specs.Given.{IsFront};
ghost use Rattle.term_limits.specs.Limits.{IsCounted};
ghost use Rattle.smt_command.specs.Change as change_spec;
ghost use Rattle.smt_command.specs.Change.{in_force};
ghost use Rattle.smt_command.specs.Given.{HasTerms, Reads, Tells};
ghost use Rattle.smt_command.specs.Laws.{IsLawful, IsNew};
ghost use Rattle.smt_command.specs.Limits as limits;
ghost use Rattle.smt_command.specs.Terms as spec;

use crate::command::read_sexp;
use crate::limits::limited;
use crate::symbols::Symbols;
use qterm::Store;
use sexp_read::Sexp;
use smt_words::{Command, ReadError};
use std::alloc::{AllocError, Global};
use strat_text::ReducerName;

/// The command that an s-expression spells under the symbols in force, or the first refusal: first its word, then its arguments from
/// left to right, then their number and kind.
///
/// Afterwards its declaration, its definition, its assertion, and the names that it gives to terms are in force, and its levels are
/// opened or closed. After a refusal or want of memory the symbols and assertions are as before.
pub fn read_command(
    alloc: Global,
    bytes: &[u8],
    sexp: &Sexp,
    reducers: Option<&[ReducerName]>,
    symbols: &mut Symbols,
    store: &mut Store,
) -> Result<Command, ReadError>
    requires few { length symbols.old.levels ≤ 65536 }
    requires there { AreThere store.old symbols.old.state.symbols }
    requires counted { IsCounted store.old symbols.old.asserts }
    ensures read { Reads store.new symbols.new result (spec.read_command (option_copied reducers.entry) bytes.now sexp.now (in_force store.old symbols.old)) }
    ensures unchanged { OnErr result (in_force store.new symbols.new ≡ in_force store.old symbols.old) }
    ensures in_store { IfOk result (HasTerms store.new) }
    ensures few { length symbols.new.levels ≤ 65536 }
    ensures there { AreThere store.new symbols.new.state.symbols }
    ensures counted { OnOk result (IsCounted store.new symbols.new.asserts) }
    ensures extends { Extends store.old store.new }
{
    let before = symbols.state.symbols.len();
    match taken(alloc, bytes, sexp, reducers, symbols, store) {
        Ok(command) => Ok(command),
        Err(error) => {
            symbols.state.symbols.cut(before);
            Err(error)
        }
    }
}

/// The same, but for names that stay after an error.
fn taken(
    alloc: Global,
    bytes: &[u8],
    sexp: &Sexp,
    reducers: Option<&[ReducerName]>,
    symbols: &mut Symbols,
    store: &mut Store,
) -> Result<Command, ReadError>
    requires few { length symbols.old.levels ≤ 65536 }
    requires there { AreThere store.old symbols.old.state.symbols }
    requires counted { IsCounted store.old symbols.old.asserts }
    ensures read { Reads store.new symbols.new result (spec.read_command (option_copied reducers.entry) bytes.now sexp.now (in_force store.old symbols.old)) }
    ensures front { OnErr result (IsFront symbols.old.state.symbols symbols.new.state.symbols) }
    ensures asserts { OnErr result (symbols.new.asserts.ids ≡ symbols.old.asserts.ids) }
    ensures levels { OnErr result (symbols.new.levels ≡ symbols.old.levels) }
    ensures in_store { IfOk result (HasTerms store.new) }
    ensures few { length symbols.new.levels ≤ 65536 }
    ensures there { AreThere store.new symbols.new.state.symbols }
    ensures counted { OnOk result (IsCounted store.new symbols.new.asserts) }
    ensures extends { Extends store.old store.new }
{
    symbols.begin(alloc);
    let levels = symbols.levels.len();
    let command = read_sexp(
        alloc,
        bytes,
        sexp,
        levels,
        reducers,
        &mut symbols.state,
        store,
    )?;
    settle(alloc, &command, sexp.start(), symbols, store)?;
    Ok(command)
}

/// Tests the limits on the terms of a command at a place, and then makes the change.
fn settle(
    alloc: Global,
    command: &Command,
    at: usize,
    symbols: &mut Symbols,
    store: &mut Store,
) -> Result<(), ReadError>
    requires few { length symbols.old.levels ≤ 65536 }
    requires there { AreThere store.old symbols.old.state.symbols }
    requires counted { IsCounted store.old symbols.old.asserts }
    requires has { HasTerms store.old command.now }
    requires bound { All (Has store.old) symbols.old.state.bound }
    requires lawful { IsLawful (length symbols.old.levels) (command_tree store.old command.now) }
    requires new { IsNew (symbols_in store.old symbols.old.state.symbols) (command_tree store.old command.now) }
    ensures settled { Tells (λ done. done) result (limits.limited at (trees_of store.old symbols.old.asserts.ids) (limits.terms_of (command_tree store.old command.now) ++ trees_of store.old symbols.old.state.bound)) }
    ensures changed { OnOk result (in_force store.new symbols.new ≡ change_spec.changed (command_tree store.old command.now) (in_force store.old symbols.old)) }
    ensures symbols { OnErr result (symbols.new.state.symbols ≡ symbols.old.state.symbols) }
    ensures asserts { OnErr result (symbols.new.asserts.ids ≡ symbols.old.asserts.ids) }
    ensures levels { OnErr result (symbols.new.levels ≡ symbols.old.levels) }
    ensures few { length symbols.new.levels ≤ 65536 }
    ensures there { AreThere store.new symbols.new.state.symbols }
    ensures counted { OnOk result (IsCounted store.new symbols.new.asserts) }
    ensures extends { Extends store.old store.new }
{
    limited(
        alloc,
        command,
        &symbols.state.bound,
        at,
        &mut symbols.asserts,
        store,
    )?;
    change(alloc, command, symbols, store)?;
    Ok(())
}

/// What a command changes, whose terms and definitions are read.
fn change(
    alloc: Global,
    command: &Command,
    symbols: &mut Symbols,
    store: &mut Store,
) -> Result<(), AllocError>
    requires few { length symbols.old.levels ≤ 65536 }
    requires there { AreThere store.old symbols.old.state.symbols }
    requires counted { IsCounted store.old symbols.old.asserts }
    requires has { HasTerms store.old command.now }
    requires lawful { IsLawful (length symbols.old.levels) (command_tree store.old command.now) }
    requires new { IsNew (symbols_in store.old symbols.old.state.symbols) (command_tree store.old command.now) }
    ensures changed { OnOk result (in_force store.new symbols.new ≡ change_spec.changed (command_tree store.old command.now) (in_force store.old symbols.old)) }
    ensures symbols { OnErr result (symbols.new.state.symbols ≡ symbols.old.state.symbols) }
    ensures asserts { OnErr result (symbols.new.asserts.ids ≡ symbols.old.asserts.ids) }
    ensures levels { OnErr result (symbols.new.levels ≡ symbols.old.levels) }
    ensures few { length symbols.new.levels ≤ 65536 }
    ensures there { AreThere store.new symbols.new.state.symbols }
    ensures counted { OnOk result (IsCounted store.new symbols.new.asserts) }
    ensures extends { Extends store.old store.new }
{
    match command {
        Command::Declare(name) => {
            symbols.declare(alloc, name, store)?;
            Ok(())
        }
        Command::Assert(id) => {
            symbols.add_assert(store, *id)?;
            Ok(())
        }
        Command::Push(n) => {
            symbols.push(*n)?;
            Ok(())
        }
        Command::Pop(n) => {
            symbols.pop(*n);
            Ok(())
        }
        Command::ResetAssertions => {
            symbols.reset();
            Ok(())
        }
        _ => Ok(()),
    }
}
