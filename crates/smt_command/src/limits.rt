//! The limits on the terms that a command reads.
ghost use Rattle.std.specs.Prelude.{◌≡◌, ◌++◌, List, map, IfOk, OnOk, All};
ghost use Rattle.qterm.specs.Tree.{Tree};
ghost use Rattle.qterm.specs.Store.{Has, trees_of};
ghost use Rattle.smt_words.specs.Command.{command_tree};
ghost use Rattle.term_limits.specs.Limits.{IsCounted};
ghost use Rattle.smt_command.specs.Given.{Tells, HasTerms};
ghost use Rattle.smt_command.specs.Limits as spec;

use qterm::{Store, TermId};
use smt_names::Bound;
use smt_words::{Asked, Command, ReadError, What, refused};
use std::alloc::{AllocError, Global};
use term_limits::{InForce, Limit};

/// The deepest that a term may be.
pub const DEPTH: usize = 1_000;

/// Refuses a command at a place that reads a term deeper than may be, be it one of its own or one that counts beside them, or where all
/// of these and the assertions in force have more distinct subterms than may be.
pub(crate) fn limited(
    alloc: Global,
    command: &Command,
    bound: &Bound,
    at: usize,
    asserts: &mut InForce,
    store: &Store,
) -> Result<(), ReadError>
    requires has { HasTerms store.now command.now }
    requires bound { All (Has store.now) bound.now }
    requires counted { IsCounted store.now asserts.old }
    ensures told { Tells (λ done. done) result (spec.limited at (trees_of store.now asserts.old.ids) (spec.terms_of (command_tree store.now command.now) ++ trees_of store.now bound.now)) }
    ensures same { OnOk result (asserts.new ≡ asserts.old) }
    ensures ids { asserts.new.ids ≡ asserts.old.ids }
{
    let read = terms_read(alloc, command, bound)?;
    match asserts.limit(alloc, store, read.as_slice())? {
        Limit::Within => Ok(()),
        Limit::TooDeep => Err(refused(What::TooDeep, at)),
        Limit::TooMany => Err(refused(What::TooManyTerms, at)),
    }
}

/// The terms of a command, and behind them those that count beside them.
fn terms_read(alloc: Global, command: &Command, bound: &Bound) -> Result<Vec<TermId>, AllocError>
    ensures terms { (ts : List Tree) → IfOk result (λ ids. trees_of ts ids.items ≡ spec.terms_of (command_tree ts command.now) ++ trees_of ts bound.now) }
    ensures has { (ts : List Tree) → HasTerms ts command.now → All (Has ts) bound.now → IfOk result (λ ids. All (Has ts) ids.items) }
{
    let mut ids = command_terms(alloc, command)?;
    ids.extend_from_slice(bound.as_slice())?;
    Ok(ids)
}

/// The terms of a command.
fn command_terms(alloc: Global, command: &Command) -> Result<Vec<TermId>, AllocError>
    ensures terms { (ts : List Tree) → IfOk result (λ ids. trees_of ts ids.items ≡ spec.terms_of (command_tree ts command.now)) }
    ensures has { (ts : List Tree) → HasTerms ts command.now → IfOk result (λ ids. All (Has ts) ids.items) }
{
    match command {
        Command::Assert(id) => {
            let ids = Vec::from_slice(alloc, &[*id])?;
            Ok(ids)
        }
        Command::GetValue(asked) => {
            let ids = asked_ids(alloc, asked.as_slice())?;
            Ok(ids)
        }
        _ => Ok(Vec::new(alloc)),
    }
}

/// The asked terms alone.
fn asked_ids(alloc: Global, asked: &[Asked]) -> Result<Vec<TermId>, AllocError>
    ensures { IfOk result (λ ids. ids.items ≡ map (λ a. a.term) asked.now) }
{
    let mut ids = Vec::with_capacity(alloc, asked.len())?;
    for one in asked {
        ids.push(one.term)?;
    }
    Ok(ids)
}
