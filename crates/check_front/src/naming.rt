//! The assertions in force at a check of a script.
ghost use Rattle.std.specs.Prelude.{◌≡◌, List, All, IfOk, IfSome, OnOk, None, option_map};
ghost use Rattle.qterm.specs.declared.name.Sort.TheVariants as sort;
ghost use Rattle.qterm.specs.Tree.{Tree};
ghost use Rattle.qterm.specs.Store.{HasSort, trees_of};
ghost use Rattle.smt_words.specs.Command.{command_tree, script_tree};
ghost use Rattle.script_text.specs.Session.{session_tree, start};
ghost use Rattle.check_front.specs.Named as spec;

use qterm::Store;
use script_text::{Session, assert_formula, begin, declare, pop_levels, push_levels, reset};
use smt_words::{Command, Script};
use std::alloc::{AllocError, Global};

/// The session at the check of this number, counted from 1, if the script has so many.
pub(crate) fn session_at(
    alloc: Global,
    store: &Store,
    script: &Script,
    number: u32,
) -> Result<Option<Session>, AllocError>
    requires within { All (λ placed. spec.IsFormulaIn store.now placed.command) script.now.commands }
    ensures found { IfOk result (λ found. option_map (λ s. trees_of store.now s.asserts) found ≡ spec.asserts_at number start (script_tree store.now script.now).commands) }
    ensures formulas { IfOk result (λ found. IfSome found (λ s. All (HasSort sort.Bool store.now) s.asserts)) }
{
    let mut session = begin(alloc);
    let mut left = number;
    for placed in script.commands.as_slice() {
        if is_named(left, &placed.command) {
            return Ok(Some(session));
        }
        left = left_after(left, &placed.command);
        pass(&mut session, &placed.command)?;
    }
    Ok(None)
}

/// Whether a command is a check.
fn is_check(command: &Command) -> bool
    ensures { (ts : List Tree) → result ≡ spec.is_check (command_tree ts command.now) }
{
    matches!(command, Command::CheckSat | Command::CheckSatUsing(_))
}

/// Whether a command is the named check, up to which so many are left.
fn is_named(left: u32, command: &Command) -> bool
    ensures { (ts : List Tree) → result ≡ spec.is_named left (command_tree ts command.now) }
{
    is_check(command) && left == 1
}

/// How many checks are left up to the named one behind a command.
fn left_after(left: u32, command: &Command) -> u32
    ensures { (ts : List Tree) → result ≡ spec.left_after left (command_tree ts command.now) }
{
    if is_check(command) {
        left.saturating_sub(1)
    } else {
        left
    }
}

/// Does what a command does to the names, assertions and levels in force.
fn pass(session: &mut Session, command: &Command) -> Result<(), AllocError>
    ensures after { (ts : List Tree) → OnOk result (session_tree ts None session.new ≡ spec.after (session_tree ts None session.old) (command_tree ts command.now)) }
    ensures formulas { (ts : List Tree) → spec.IsFormulaIn ts command.now → All (HasSort sort.Bool ts) session.old.asserts → OnOk result (All (HasSort sort.Bool ts) session.new.asserts) }
{
    match command {
        Command::Declare(name) => declare(session, name),
        Command::Assert(id) => assert_formula(session, *id),
        Command::Push(levels) => push_levels(session, *levels),
        Command::Pop(levels) => {
            pop_levels(session, *levels);
            Ok(())
        }
        Command::ResetAssertions => {
            reset(session);
            Ok(())
        }
        _ => Ok(()),
    }
}
