//! The negation of canonical formulas.
//!
//! One table serves a whole walk, so that the negation of each distinct formula is found once. The negation of a canonical Iff
//! or Ite is the same over the negated parts: the rules of Iff and Ite, which the definition goes through, give this back.
ghost use Rattle.std.specs.Prelude.{◌≡◌, IfOk, OnOk, OnErr, MatchOption, All, Some, None, ℕ, List, cond, nat_eq, ◌+ℤ◌, neg_ℤ, negsuc};
ghost use Rattle.std.specs.List.{AllZip};
ghost use Rattle.std.specs.Option.{option_map};
ghost use Rattle.std.specs.HashMap.{get};
ghost use Rattle.qterm.specs.Tree.{Tree, IsLawful, Num, Le, Iff, Ite};
ghost use Rattle.qterm.specs.Store.{Has, HasSort, Shows, Extends, tree_at, trees_at};
ghost use Rattle.qterm.specs.Kids.{kids, listed};
ghost use Rattle.qterm.specs.declared.name.Sort.TheVariants.{Bool, Int};
ghost use Rattle.qwalk.specs.Walk.{same_id};
ghost use Rattle.qlin.specs.Order.{number_of};
ghost use Rattle.qlin.specs.Linear.{and_then};
ghost use Rattle.qlin.specs.Junction.{sorted, joined};
ghost use Rattle.qlin.specs.Negation.{neg};
ghost use Rattle.qnegation.specs.Answer.{IsOwn, Answers};
ghost use Rattle.qnegation.specs.Negation.{IsFormula, IsNegation, AreNegations, shown, shown_all, all_of};

use crate::opposite::opposite;
use qlin::{in_range, sort_terms};
use qterm::{Sort, Store, Term, TermId, TermIds};
use qwalk::{Fold, fold_terms};
use std::alloc::{AllocError, Global};
use std::collections::HashMap;

/// The negations found so far, for a whole walk. A formula may have none.
#[derive(Drop)]
pub struct Negations {
    alloc: Global,
    known: HashMap<TermId, Option<TermId>>,
}

impl Negations {
    /// A table without negations.
    pub fn new(alloc: Global) -> Negations
        ensures right { (ts : List Tree) → AreNegations ts result }
    {
        Negations {
            alloc,
            known: HashMap::new(alloc),
        }
    }

    /// Puts the negation of a term down.
    fn note(&mut self, id: TermId, found: &Option<TermId>) -> Result<(), AllocError>
        ensures ok { OnOk result ((j : ℕ) → get same_id self.new.known j ≡ cond (nat_eq id j) (Some found.now) (get same_id self.old.known j)) }
        ensures err { OnErr result ((j : ℕ) → get same_id self.new.known j ≡ get same_id self.old.known j) }
    {
        self.known.insert(id, *found)?;
        Ok(())
    }
}

/// The negation of a canonical formula, or nothing where it has none.
pub fn negate(
    alloc: Global,
    store: &mut Store,
    table: &mut Negations,
    id: TermId,
) -> Result<Option<TermId>, AllocError>
    requires formula { HasSort Bool store.old id }
    requires own { IsOwn store.old id }
    requires table { AreNegations store.old table.old }
    ensures answers { IfOk result (Answers store.new (neg (tree_at store.old id))) }
    ensures formula { IfOk result (IsFormula store.new) }
    ensures table { AreNegations store.new table.new }
    ensures extends { Extends store.old store.new }
{
    let found = fold_terms(alloc, store, table, id)?;
    Ok(found)
}

impl Fold<Option<TermId>> for Negations {
    type Task = ();

    ghost task = { λ _. tt };

    ghost ready = { λ table ts. AreNegations ts table };

    ghost right = { λ _ ts t o. IsNegation ts t o };

    fn known(&self, store: &Store, id: TermId) -> Option<Option<TermId>> {
        if store.sort(id) == Sort::Int {
            return Some(None);
        }
        match store.view(id) {
            Term::Not(inner) => Some(Some(*inner)),
            _ => self.known.get(&id).copied(),
        }
    }

    fn node(
        &mut self,
        store: &mut Store,
        id: TermId,
        outs: &[Option<TermId>],
    ) -> Result<Option<TermId>, AllocError> {
        let found = negation(self.alloc, store, id, outs)?;
        self.note(id, &found)?;
        Ok(found)
    }
}

/// The negation of a term, whose children have the negations `outs`.
fn negation(
    alloc: Global,
    store: &mut Store,
    id: TermId,
    outs: &[Option<TermId>],
) -> Result<Option<TermId>, AllocError>
    requires has { Has store.old id }
    requires children { AllZip (IsNegation store.old) (listed (kids (tree_at store.old id))) outs.now }
    ensures right { IfOk result (IsNegation store.new (tree_at store.old id)) }
    ensures extends { Extends store.old store.new }
{
    if store.sort(id) == Sort::Int {
        return Ok(None);
    }
    match store.view(id) {
        Term::True => {
            let found = store.intern(Term::False)?;
            Ok(Some(found))
        }
        Term::False => {
            let found = store.intern(Term::True)?;
            Ok(Some(found))
        }
        Term::Le(left, right) => {
            let left = *left;
            let right = *right;
            negated_bound(alloc, store, left, right)
        }
        Term::Iff(left, _) => {
            let left = *left;
            negated_iff(store, left, outs[1])
        }
        Term::Not(inner) => Ok(Some(*inner)),
        Term::And(_) => joined(alloc, store, false, outs),
        Term::Or(_) => joined(alloc, store, true, outs),
        Term::Ite(condition, _, _) => {
            let condition = *condition;
            negated_ite(store, condition, outs[1], outs[2])
        }
        _ => {
            let found = store.intern(Term::Not(id))?;
            Ok(Some(found))
        }
    }
}

/// The negation of a bound: the opposite sum at most `-k - 1` for a sum at most `k`, if this number is in range.
fn negated_bound(
    alloc: Global,
    store: &mut Store,
    left: TermId,
    right: TermId,
) -> Result<Option<TermId>, AllocError>
    requires left { HasSort Int store.old left }
    requires right { HasSort Int store.old right }
    requires lawful { IsLawful (Le (tree_at store.old left) (tree_at store.old right)) }
    ensures right { IfOk result (IsNegation store.new (Le (tree_at store.old left) (tree_at store.old right))) }
    ensures extends { Extends store.old store.new }
{
    let limit = limit_below(number_of(store, right));
    if in_range(limit) {
        let sum = opposite(alloc, store, left)?;
        let found = at_most(store, sum, limit)?;
        Ok(Some(found))
    } else {
        Ok(None)
    }
}

/// The number at the root of a term, or 0.
fn number_of(store: &Store, id: TermId) -> i128
    requires has { Has store.now id }
    ensures { result ≡ number_of (tree_at store.now id) }
{
    match store.view(id) {
        Term::Num(number) | Term::Scale(number, _) => *number,
        _ => 0,
    }
}

/// The number that the opposite of a sum is at most where the sum isn't at most `number`.
fn limit_below(number: i128) -> i128
    ensures { result ≡ neg_ℤ number +ℤ negsuc 0 }
{
    -1 - number
}

/// The formula that an Int term is at most a number.
fn at_most(store: &mut Store, left: TermId, number: i128) -> Result<TermId, AllocError>
    requires left { HasSort Int store.old left }
    ensures shows { IfOk result (λ id. Shows store.new id (Le (tree_at store.old left) (Num number))) }
    ensures extends { Extends store.old store.new }
{
    let right = store.intern(Term::Num(number))?;
    let found = store.intern(Term::Le(left, right))?;
    Ok(found)
}

/// Iff with its second side replaced by the side's negation.
fn negated_iff(
    store: &mut Store,
    left: TermId,
    right: Option<TermId>,
) -> Result<Option<TermId>, AllocError>
    requires left { HasSort Bool store.old left }
    requires right { IsFormula store.old right }
    ensures answers { IfOk result (Answers store.new (option_map (Iff (tree_at store.old left)) (shown store.old right))) }
    ensures formula { IfOk result (IsFormula store.new) }
    ensures extends { Extends store.old store.new }
{
    match right {
        None => Ok(None),
        Some(right) => {
            let found = store.intern(Term::Iff(left, right))?;
            Ok(Some(found))
        }
    }
}

/// Ite with both branches replaced by their negations.
fn negated_ite(
    store: &mut Store,
    condition: TermId,
    then_term: Option<TermId>,
    else_term: Option<TermId>,
) -> Result<Option<TermId>, AllocError>
    requires condition { HasSort Bool store.old condition }
    requires then_formula { IsFormula store.old then_term }
    requires else_formula { IsFormula store.old else_term }
    ensures answers { IfOk result (Answers store.new (and_then (shown store.old then_term) (λ a. option_map (Ite (tree_at store.old condition) a) (shown store.old else_term)))) }
    ensures formula { IfOk result (IsFormula store.new) }
    ensures extends { Extends store.old store.new }
{
    match then_term {
        None => Ok(None),
        Some(then_term) => match else_term {
            None => Ok(None),
            Some(else_term) => {
                let found = store.intern(Term::Ite(condition, then_term, else_term))?;
                Ok(Some(found))
            }
        },
    }
}

/// And or Or of negations, in their order, each once.
fn joined(
    alloc: Global,
    store: &mut Store,
    is_and: bool,
    outs: &[Option<TermId>],
) -> Result<Option<TermId>, AllocError>
    requires formulas { All (IsFormula store.old) outs.now }
    ensures answers { IfOk result (Answers store.new (option_map (λ ns. joined is_and (sorted ns)) (shown_all store.old outs.now))) }
    ensures formula { IfOk result (IsFormula store.new) }
    ensures extends { Extends store.old store.new }
{
    match all_of(alloc, outs)? {
        None => Ok(None),
        Some(mut all) => {
            let sorted = sort_terms(alloc, store, &mut all)?;
            let found = join(store, is_and, sorted)?;
            Ok(Some(found))
        }
    }
}

/// All negations, if there are all.
fn all_of(alloc: Global, outs: &[Option<TermId>]) -> Result<Option<Vec<TermId>>, AllocError>
    ensures { IfOk result (λ o. MatchOption o (all_of outs.now ≡ None) (λ v. all_of outs.now ≡ Some v.items)) }
{
    let mut all = Vec::new(alloc);
    for out in outs {
        match out {
            None => return Ok(None),
            Some(id) => all.push(*id)?,
        }
    }
    Ok(Some(all))
}

/// And or Or over formulas.
fn join(store: &mut Store, is_and: bool, ids: Vec<TermId>) -> Result<TermId, AllocError>
    requires formulas { All (HasSort Bool store.old) ids.items }
    ensures shows { IfOk result (λ r. Shows store.new r (joined is_and (trees_at store.old ids.items))) }
    ensures extends { Extends store.old store.new }
{
    let ids = TermIds::from_vec(ids);
    if is_and {
        store.intern(Term::And(ids))
    } else {
        store.intern(Term::Or(ids))
    }
}
