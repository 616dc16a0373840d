//! Scripts of tables: how they are put together, and what is shown of their commands.

use answer_text::write_term;
use qterm::{Store, TermId};
use smt_command::commands;
use smt_words::{Command, Script};
use std::alloc::{AllocError, Global};

/// Four declarations.
pub(crate) const NAMES: &[u8] =
    b"(declare-const x Int)(declare-const y Int)(declare-const p Bool)(declare-const q Bool)";

/// Texts one behind the other.
pub(crate) fn joined(alloc: Global, texts: &[&[u8]]) -> Result<Vec<u8>, AllocError> {
    let mut all = Vec::new(alloc);
    for text in texts {
        all.extend_from_slice(*text)?;
    }
    Ok(all)
}

/// The text of a term.
fn term_text(alloc: Global, store: &Store, id: TermId) -> Result<Vec<u8>, AllocError> {
    if store.has(id) {
        write_term(alloc, store, id)
    } else {
        Err(AllocError)
    }
}

/// The text of the formula that is asserted, of the first term whose value is asked for, or of the string.
fn command_text(alloc: Global, store: &Store, command: &Command) -> Result<Vec<u8>, AllocError> {
    match command {
        Command::Assert(id) => term_text(alloc, store, *id),
        Command::GetValue(asked) => match asked.as_slice() {
            [first, ..] => term_text(alloc, store, first.term),
            [] => Err(AllocError),
        },
        Command::Echo(echoed) => Vec::from_slice(alloc, echoed.bytes.as_slice()),
        _ => Err(AllocError),
    }
}

/// The text of the last command of a script without a fault, where the four names are declared.
pub(crate) fn last_text(alloc: Global, text: &[u8]) -> Result<Vec<u8>, AllocError> {
    let bytes = joined(alloc, &[NAMES, text])?;
    let mut store = Store::new(alloc);
    let script = commands(alloc, bytes.as_slice(), &mut store, None)?;
    match (script.fault, script.commands.as_slice()) {
        (None, [.., last]) => command_text(alloc, &store, &last.command),
        _ => Err(AllocError),
    }
}

/// A letter of a command.
fn letter(command: &Command) -> u8 {
    match command {
        Command::SetLogic => b'L',
        Command::PrintSuccess(true) => b'S',
        Command::PrintSuccess(false) => b's',
        Command::SetOption(true) => b'O',
        Command::SetOption(false) => b'o',
        Command::SetInfo => b'I',
        Command::Declare(_) => b'D',
        Command::Define => b'F',
        Command::Assert(_) => b'A',
        Command::Push(_) => b'+',
        Command::Pop(_) => b'-',
        Command::CheckSat => b'C',
        Command::CheckSatUsing(_) => b'U',
        Command::Apply(_) => b'Y',
        Command::GetModel => b'M',
        Command::GetValue(_) => b'V',
        Command::GetProof => b'P',
        Command::GetInfo(_) => b'G',
        Command::Echo(_) => b'E',
        Command::ResetAssertions => b'R',
        Command::Exit => b'X',
    }
}

/// The letters of the commands in order.
pub(crate) fn letters(alloc: Global, script: &Script) -> Result<Vec<u8>, AllocError> {
    let mut all = Vec::new(alloc);
    for placed in script.commands.as_slice() {
        all.push(letter(&placed.command))?;
    }
    Ok(all)
}
