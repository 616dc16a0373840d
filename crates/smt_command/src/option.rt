//! Options, attributes of a script, and flags of `get-info`.
ghost use Rattle.std.specs.Prelude.{◌≡◌, List};
ghost use Rattle.qterm.specs.Tree.{Tree};
ghost use Rattle.strat_text.specs.Form.{form_of, forms_of};
ghost use Rattle.smt_words.specs.Command.{command_tree};
ghost use Rattle.smt_command.specs.Given.{Tells};
ghost use Rattle.smt_command.specs.Reading as spec;

use crate::argument::{bad, only};
use sexp_read::Sexp;
use smt_names::{digits, keyword, name};
use smt_theory::truth_named;
use smt_words::{Command, OptionKind, ReadError, info_named, option_kind};

/// `(set-option KEY VALUE)`, or a key alone that is none of those that are known.
pub(crate) fn read_option(bytes: &[u8], args: &[Sexp], at: usize) -> Result<Command, ReadError>
    ensures { (ts : List Tree) → Tells (command_tree ts) result (spec.read_option at (forms_of bytes.now args.now)) }
{
    match args {
        [] => Err(bad(at)),
        [key, rest @ ..] => match keyword(bytes, key) {
            None => Err(bad(at)),
            Some(key) => option_by(bytes, rest, at, option_kind(key)),
        },
    }
}

/// What stands behind the key of an option.
#[tactic(auto, using(crate::proofs::Ends::option_more))]
fn option_by(bytes: &[u8], rest: &[Sexp], at: usize, kind: OptionKind) -> Result<Command, ReadError>
    ensures { (ts : List Tree) → Tells (command_tree ts) result (spec.option_by at kind (forms_of bytes.now rest.now)) }
{
    match rest {
        [] => option_alone(at, kind),
        [value] => match keyword(bytes, value) {
            Some(_) => Err(bad(at)),
            None => option_with(bytes, at, kind, value),
        },
        [_, _, ..] => Err(bad(at)),
    }
}

/// An option without a value.
fn option_alone(at: usize, kind: OptionKind) -> Result<Command, ReadError>
    ensures { (ts : List Tree) → Tells (command_tree ts) result (spec.option_alone at kind) }
{
    match kind {
        OptionKind::Other => Ok(Command::SetOption(false)),
        OptionKind::PrintSuccess | OptionKind::Truth | OptionKind::Number => Err(bad(at)),
    }
}

/// An option with a value that is no keyword.
fn option_with(
    bytes: &[u8],
    at: usize,
    kind: OptionKind,
    value: &Sexp,
) -> Result<Command, ReadError>
    ensures { (ts : List Tree) → Tells (command_tree ts) result (spec.option_with at kind (form_of bytes.now value.now)) }
{
    match kind {
        OptionKind::PrintSuccess => match truth(bytes, value) {
            Some(on) => Ok(Command::PrintSuccess(on)),
            None => Err(bad(at)),
        },
        OptionKind::Truth => match truth(bytes, value) {
            Some(_) => Ok(Command::SetOption(true)),
            None => Err(bad(at)),
        },
        OptionKind::Number => match digits(bytes, value) {
            Some(_) => Ok(Command::SetOption(true)),
            None => Err(bad(at)),
        },
        OptionKind::Other => Ok(Command::SetOption(false)),
    }
}

/// The truth value that an s-expression is.
fn truth(bytes: &[u8], sexp: &Sexp) -> Option<bool>
    ensures { result ≡ spec.truth_of (form_of bytes.now sexp.now) }
{
    match name(bytes, sexp) {
        Some(name) => truth_named(name),
        None => None,
    }
}

/// `(set-info KEY VALUE)`, or a key alone.
pub(crate) fn read_set_info(bytes: &[u8], args: &[Sexp], at: usize) -> Result<Command, ReadError>
    ensures { (ts : List Tree) → Tells (command_tree ts) result (spec.read_set_info at (forms_of bytes.now args.now)) }
{
    match args {
        [] => Err(bad(at)),
        [key, rest @ ..] => match keyword(bytes, key) {
            None => Err(bad(at)),
            Some(_) => info_value(bytes, rest, at),
        },
    }
}

/// What stands behind the key of an attribute.
#[tactic(auto, using(crate::proofs::Ends::info_more))]
fn info_value(bytes: &[u8], rest: &[Sexp], at: usize) -> Result<Command, ReadError>
    ensures { (ts : List Tree) → Tells (command_tree ts) result (spec.info_value at (forms_of bytes.now rest.now)) }
{
    match rest {
        [] => Ok(Command::SetInfo),
        [value] => match keyword(bytes, value) {
            Some(_) => Err(bad(at)),
            None => Ok(Command::SetInfo),
        },
        [_, _, ..] => Err(bad(at)),
    }
}

/// `(get-info FLAG)`
pub(crate) fn read_get_info(bytes: &[u8], args: &[Sexp], at: usize) -> Result<Command, ReadError>
    ensures { (ts : List Tree) → Tells (command_tree ts) result (spec.read_get_info at (forms_of bytes.now args.now)) }
{
    match args {
        [] => Err(bad(at)),
        [key, rest @ ..] => match keyword(bytes, key) {
            None => Err(bad(at)),
            Some(key) => only(bytes, rest, at, Command::GetInfo(info_named(key))),
        },
    }
}
