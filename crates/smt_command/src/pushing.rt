//! Levels.
ghost use Rattle.std.specs.Prelude.{◌≡◌, ◌≤◌, ℕ, List, Some};
ghost use Rattle.qterm.specs.Tree.{Tree};
ghost use Rattle.strat_text.specs.Form.{forms_of, value_from};
ghost use Rattle.strat_text.specs.Given.{narrow};
ghost use Rattle.smt_words.specs.Command.{command_tree};
ghost use Rattle.smt_command.specs.Given.{Tells, Counts};
ghost use Rattle.smt_command.specs.Reading as spec;

use crate::argument::bad;
use sexp_read::Sexp;
use smt_names::digits;
use smt_words::{Command, ReadError, What, refused};
use strat_text::value;

/// The most levels.
pub const LEVELS: usize = 65_536;

/// `(push N)`, where so many levels are open.
pub(crate) fn read_push(
    bytes: &[u8],
    args: &[Sexp],
    at: usize,
    levels: usize,
) -> Result<Command, ReadError>
    requires few { levels ≤ 65536 }
    ensures { (ts : List Tree) → Tells (command_tree ts) result (spec.and (spec.read_count at (forms_of bytes.now args.now)) (spec.pushed at levels)) }
{
    let count = read_count(bytes, args, at)?;
    pushed(count, levels, at)
}

/// `(pop N)`, where so many levels are open.
pub(crate) fn read_pop(
    bytes: &[u8],
    args: &[Sexp],
    at: usize,
    levels: usize,
) -> Result<Command, ReadError>
    requires few { levels ≤ 65536 }
    ensures { (ts : List Tree) → Tells (command_tree ts) result (spec.and (spec.read_count at (forms_of bytes.now args.now)) (spec.popped at levels)) }
{
    let count = read_count(bytes, args, at)?;
    popped(count, levels, at)
}

/// How many levels, 1 where nothing is said, or nothing where the number passes 128 bits.
fn read_count(bytes: &[u8], args: &[Sexp], at: usize) -> Result<Option<u128>, ReadError>
    ensures { Counts result (spec.read_count at (forms_of bytes.now args.now)) }
{
    match args {
        [] => Ok(Some(1)),
        [count, rest @ ..] => match digits(bytes, count) {
            None => Err(bad(at)),
            Some(digits) => count_alone(bytes, rest, at, digits),
        },
    }
}

/// The number of digits, and nothing behind it.
#[tactic(auto, using(crate::proofs::Ends::only_more))]
fn count_alone(
    bytes: &[u8],
    rest: &[Sexp],
    at: usize,
    digits: &[u8],
) -> Result<Option<u128>, ReadError>
    ensures { Counts result (spec.counted at (forms_of bytes.now rest.now) (Some (value_from 0 digits.now))) }
{
    match rest {
        [] => Ok(value(digits)),
        [_, ..] => Err(bad(at)),
    }
}

fn pushed(count: Option<u128>, levels: usize, at: usize) -> Result<Command, ReadError>
    requires few { levels ≤ 65536 }
    ensures { (ts : List Tree) (n : ℕ) → count ≡ narrow n → Tells (command_tree ts) result (spec.pushed at levels n) }
{
    match count {
        None => Err(refused(What::PushTooMany, at)),
        Some(count) => {
            if count > (LEVELS - levels) as u128 {
                return Err(refused(What::PushTooMany, at));
            }
            Ok(Command::Push(count as u32))
        }
    }
}

fn popped(count: Option<u128>, levels: usize, at: usize) -> Result<Command, ReadError>
    requires few { levels ≤ 65536 }
    ensures { (ts : List Tree) (n : ℕ) → count ≡ narrow n → Tells (command_tree ts) result (spec.popped at levels n) }
{
    match count {
        None => Err(refused(What::PopTooMany, at)),
        Some(count) => {
            if count > levels as u128 {
                return Err(refused(What::PopTooMany, at));
            }
            Ok(Command::Pop(count as u32))
        }
    }
}
