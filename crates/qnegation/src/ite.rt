//! Ite of a canonical condition and canonical branches.
//!
//! The condition is replaced by its base, the lesser of it and its negation, with the branches swapped where this turns it.
ghost use Rattle.std.specs.Prelude.{◌≡◌, IfOk, None, if◌then◌else◌};
ghost use Rattle.qterm.specs.Tree.{sort_of};
ghost use Rattle.qterm.specs.Store.{Has, HasSort, Shows, Extends, tree_at};
ghost use Rattle.qterm.specs.declared.name.Sort.TheVariants.{Bool};
ghost use Rattle.qlin.specs.Order.{is_before};
ghost use Rattle.qlin.specs.Iff.{constant_of};
ghost use Rattle.qlin.specs.Ite.{ite_over, ite_of};
ghost use Rattle.qlin.specs.Negation.{neg};
ghost use Rattle.qnegation.specs.Answer.{IsOwn, Answers};
ghost use Rattle.qnegation.specs.Negation.{AreNegations};

use crate::junction::canonical_junction;
use crate::negation::{Negations, negate};
use crate::pair::{constant_of, is_before, is_same, truth};
use qterm::{Store, Term, TermId};
use std::alloc::{AllocError, Global};

/// The canonical form of Ite, or nothing where the negation of the condition is needed and is none.
pub fn canonical_ite(
    alloc: Global,
    store: &mut Store,
    table: &mut Negations,
    condition: TermId,
    then_term: TermId,
    else_term: TermId,
) -> Result<Option<TermId>, AllocError>
    requires condition_formula { HasSort Bool store.old condition }
    requires then_has { Has store.old then_term }
    requires else_same { HasSort (sort_of (tree_at store.old then_term)) store.old else_term }
    requires condition_own { IsOwn store.old condition }
    requires table { AreNegations store.old table.old }
    ensures answers { IfOk result (Answers store.new (ite_of (tree_at store.old condition) (neg (tree_at store.old condition)) (tree_at store.old then_term) (tree_at store.old else_term))) }
    ensures table { AreNegations store.new table.new }
    ensures extends { Extends store.old store.new }
{
    match constant_of(store, condition) {
        Some(true) => Ok(Some(then_term)),
        Some(false) => Ok(Some(else_term)),
        None => ite_open(alloc, store, table, condition, then_term, else_term),
    }
}

/// Ite with a condition that is no constant.
#[tactic(auto, using(crate::proofs::Negated::AreNegations_extends))]
fn ite_open(
    alloc: Global,
    store: &mut Store,
    table: &mut Negations,
    condition: TermId,
    then_term: TermId,
    else_term: TermId,
) -> Result<Option<TermId>, AllocError>
    requires condition_formula { HasSort Bool store.old condition }
    requires then_has { Has store.old then_term }
    requires else_same { HasSort (sort_of (tree_at store.old then_term)) store.old else_term }
    requires condition_own { IsOwn store.old condition }
    requires table { AreNegations store.old table.old }
    requires condition_open { constant_of (tree_at store.old condition) ≡ None }
    ensures answers { IfOk result (Answers store.new (ite_of (tree_at store.old condition) (neg (tree_at store.old condition)) (tree_at store.old then_term) (tree_at store.old else_term))) }
    ensures table { AreNegations store.new table.new }
    ensures extends { Extends store.old store.new }
{
    if is_same(store, then_term, else_term) {
        return Ok(Some(then_term));
    }
    match negate(alloc, store, table, condition)? {
        None => Ok(None),
        Some(negated) => {
            let found = ite_either(alloc, store, condition, negated, then_term, else_term)?;
            Ok(Some(found))
        }
    }
}

/// Ite over the base of a condition that comes with its negation.
fn ite_either(
    alloc: Global,
    store: &mut Store,
    condition: TermId,
    negated: TermId,
    then_term: TermId,
    else_term: TermId,
) -> Result<TermId, AllocError>
    requires condition_formula { HasSort Bool store.old condition }
    requires negated_formula { HasSort Bool store.old negated }
    requires then_has { Has store.old then_term }
    requires else_same { HasSort (sort_of (tree_at store.old then_term)) store.old else_term }
    ensures shows { IfOk result (λ id. Shows store.new id (if is_before (tree_at store.old condition) (tree_at store.old negated) then ite_over (tree_at store.old condition) (tree_at store.old negated) (tree_at store.old then_term) (tree_at store.old else_term) else ite_over (tree_at store.old negated) (tree_at store.old condition) (tree_at store.old else_term) (tree_at store.old then_term))) }
    ensures extends { Extends store.old store.new }
{
    if is_before(store, condition, negated) {
        ite_over(alloc, store, condition, negated, then_term, else_term)
    } else {
        ite_over(alloc, store, negated, condition, else_term, then_term)
    }
}

/// Ite over a base, which comes with its negation. Constant branches give And, Or, the base or its negation.
fn ite_over(
    alloc: Global,
    store: &mut Store,
    base: TermId,
    negated: TermId,
    a: TermId,
    b: TermId,
) -> Result<TermId, AllocError>
    requires base_formula { HasSort Bool store.old base }
    requires negated_formula { HasSort Bool store.old negated }
    requires a_has { Has store.old a }
    requires b_same { HasSort (sort_of (tree_at store.old a)) store.old b }
    ensures shows { IfOk result (λ id. Shows store.new id (ite_over (tree_at store.old base) (tree_at store.old negated) (tree_at store.old a) (tree_at store.old b))) }
    ensures extends { Extends store.old store.new }
{
    match constant_of(store, a) {
        Some(true) => match constant_of(store, b) {
            Some(true) => truth(store, true),
            Some(false) => Ok(base),
            None => canonical_junction(alloc, store, false, &[base, b]),
        },
        Some(false) => match constant_of(store, b) {
            Some(true) => Ok(negated),
            Some(false) => truth(store, false),
            None => canonical_junction(alloc, store, true, &[negated, b]),
        },
        None => match constant_of(store, b) {
            Some(true) => canonical_junction(alloc, store, false, &[negated, a]),
            Some(false) => canonical_junction(alloc, store, true, &[base, a]),
            None => store.intern(Term::Ite(base, a, b)),
        },
    }
}
