//! Declarations and logics.
ghost use Rattle.std.specs.Prelude.{◌≡◌, List};
ghost use Rattle.qterm.specs.Tree.{Tree};
ghost use Rattle.qterm.specs.Name.{IsNameText};
ghost use Rattle.strat_text.specs.Form.{form_of, forms_of};
ghost use Rattle.smt_names.specs.Table.{symbols_in};
ghost use Rattle.smt_words.specs.Command.{command_tree};
ghost use Rattle.smt_command.specs.Given.{Tells};
ghost use Rattle.smt_command.specs.Reading as spec;

use crate::argument::{bad, only};
use qterm::{Name, Sort};
use sexp_read::Sexp;
use smt_names::{Table, name, new_name, place};
use smt_words::{Command, ReadError, What, is_logic, refused, sort_named};
use std::alloc::Global;

/// `(set-logic L)`
pub(crate) fn read_logic(bytes: &[u8], args: &[Sexp], at: usize) -> Result<Command, ReadError>
    ensures { (ts : List Tree) → Tells (command_tree ts) result (spec.read_logic at (forms_of bytes.now args.now)) }
{
    match args {
        [] => Err(bad(at)),
        [logic, rest @ ..] => match name(bytes, logic) {
            None => Err(bad(at)),
            Some(name) => {
                if !is_logic(name) {
                    return Err(refused(What::BadLogic, place(bytes, logic)));
                }
                only(bytes, rest, at, Command::SetLogic)
            }
        },
    }
}

/// The sort that an s-expression in the command at a place is.
pub(crate) fn read_sort(bytes: &[u8], sexp: &Sexp, at: usize) -> Result<Sort, ReadError>
    ensures { Tells (λ sort. sort) result (spec.read_sort at (form_of bytes.now sexp.now)) }
{
    match name(bytes, sexp) {
        None => Err(bad(at)),
        Some(name) => match sort_named(name) {
            None => Err(refused(What::UnknownSymbol, place(bytes, sexp))),
            Some(sort) => Ok(sort),
        },
    }
}

/// A sort, and nothing behind it.
fn declared(
    alloc: Global,
    bytes: &[u8],
    rest: &[Sexp],
    at: usize,
    text: &[u8],
) -> Result<Command, ReadError>
    requires { IsNameText text.now }
    ensures { (ts : List Tree) → Tells (command_tree ts) result (spec.declared at (forms_of bytes.now rest.now) text.now) }
{
    match rest {
        [] => Err(bad(at)),
        [sort, rest @ ..] => {
            let sort = read_sort(bytes, sort, at)?;
            let name = Name::new(alloc, text, sort)?;
            only(bytes, rest, at, Command::Declare(name))
        }
    }
}

/// `(declare-const NAME SORT)`
pub(crate) fn read_const(
    alloc: Global,
    bytes: &[u8],
    symbols: &Table,
    args: &[Sexp],
    at: usize,
) -> Result<Command, ReadError>
    ensures { (ts : List Tree) → Tells (command_tree ts) result (spec.read_const (symbols_in ts symbols.now) at (forms_of bytes.now args.now)) }
{
    match args {
        [] => Err(bad(at)),
        [name, rest @ ..] => {
            let text = new_name(bytes, symbols, at, name)?;
            declared(alloc, bytes, rest, at, text)
        }
    }
}

/// An empty list of sorts.
#[tactic(auto, unfolding(strat_text::specs::Form::form_of), using(crate::proofs::Ends::no_sorts_more))]
fn no_sorts(bytes: &[u8], sexp: &Sexp, at: usize) -> Result<(), ReadError>
    ensures { Tells (λ done. done) result (spec.no_sorts at (form_of bytes.now sexp.now)) }
{
    match sexp {
        Sexp::Atom { .. } => Err(bad(at)),
        Sexp::List { items, .. } => match items.as_slice() {
            [] => Ok(()),
            [_, ..] => Err(bad(at)),
        },
    }
}

/// No sorts of arguments, a sort, and nothing behind it.
fn fun_declared(
    alloc: Global,
    bytes: &[u8],
    rest: &[Sexp],
    at: usize,
    text: &[u8],
) -> Result<Command, ReadError>
    requires { IsNameText text.now }
    ensures { (ts : List Tree) → Tells (command_tree ts) result (spec.fun_declared at (forms_of bytes.now rest.now) text.now) }
{
    match rest {
        [] => Err(bad(at)),
        [sorts, rest @ ..] => {
            no_sorts(bytes, sorts, at)?;
            declared(alloc, bytes, rest, at, text)
        }
    }
}

/// `(declare-fun NAME () SORT)`
pub(crate) fn read_fun(
    alloc: Global,
    bytes: &[u8],
    symbols: &Table,
    args: &[Sexp],
    at: usize,
) -> Result<Command, ReadError>
    ensures { (ts : List Tree) → Tells (command_tree ts) result (spec.read_fun (symbols_in ts symbols.now) at (forms_of bytes.now args.now)) }
{
    match args {
        [] => Err(bad(at)),
        [name, rest @ ..] => {
            let text = new_name(bytes, symbols, at, name)?;
            fun_declared(alloc, bytes, rest, at, text)
        }
    }
}
