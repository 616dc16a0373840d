//! Iff of two canonical formulas.
//!
//! Each side is replaced by its base, the lesser of it and its negation; the second one is negated where this turns exactly one.
ghost use Rattle.std.specs.Prelude.{◌≡◌, IfOk, None, if◌then◌else◌};
ghost use Rattle.qterm.specs.Store.{HasSort, Shows, Extends, tree_at};
ghost use Rattle.qterm.specs.declared.name.Sort.TheVariants.{Bool};
ghost use Rattle.qlin.specs.Iff.{constant_of, differ, iff_sorted, iff_pair, iff_of};
ghost use Rattle.qlin.specs.Negation.{neg};
ghost use Rattle.qnegation.specs.Answer.{IsOwn, Answers};
ghost use Rattle.qnegation.specs.Negation.{AreNegations};

use crate::negation::{Negations, negate};
use crate::pair::{constant_of, is_before, is_same, truth};
use qterm::{Store, Term, TermId};
use std::alloc::{AllocError, Global};

/// The canonical form of Iff of two canonical formulas, or nothing where a negation that it needs is none.
pub fn canonical_iff(
    alloc: Global,
    store: &mut Store,
    table: &mut Negations,
    left: TermId,
    right: TermId,
) -> Result<Option<TermId>, AllocError>
    requires left_formula { HasSort Bool store.old left }
    requires right_formula { HasSort Bool store.old right }
    requires left_own { IsOwn store.old left }
    requires right_own { IsOwn store.old right }
    requires table { AreNegations store.old table.old }
    ensures answers { IfOk result (Answers store.new (iff_of (tree_at store.old left) (neg (tree_at store.old left)) (tree_at store.old right) (neg (tree_at store.old right)))) }
    ensures table { AreNegations store.new table.new }
    ensures extends { Extends store.old store.new }
{
    match constant_of(store, left) {
        Some(true) => Ok(Some(right)),
        Some(false) => {
            let found = negate(alloc, store, table, right)?;
            Ok(found)
        }
        None => match constant_of(store, right) {
            Some(true) => Ok(Some(left)),
            Some(false) => {
                let found = negate(alloc, store, table, left)?;
                Ok(found)
            }
            None => iff_open(alloc, store, table, left, right),
        },
    }
}

/// Iff of two formulas that are no constants.
#[tactic(auto, using(crate::proofs::Negated::AreNegations_extends))]
fn iff_open(
    alloc: Global,
    store: &mut Store,
    table: &mut Negations,
    left: TermId,
    right: TermId,
) -> Result<Option<TermId>, AllocError>
    requires left_formula { HasSort Bool store.old left }
    requires right_formula { HasSort Bool store.old right }
    requires left_own { IsOwn store.old left }
    requires right_own { IsOwn store.old right }
    requires table { AreNegations store.old table.old }
    requires left_open { constant_of (tree_at store.old left) ≡ None }
    requires right_open { constant_of (tree_at store.old right) ≡ None }
    ensures answers { IfOk result (Answers store.new (iff_of (tree_at store.old left) (neg (tree_at store.old left)) (tree_at store.old right) (neg (tree_at store.old right)))) }
    ensures table { AreNegations store.new table.new }
    ensures extends { Extends store.old store.new }
{
    if is_same(store, left, right) {
        let found = truth(store, true)?;
        return Ok(Some(found));
    }
    match negate(alloc, store, table, left)? {
        None => Ok(None),
        Some(not_left) => match negate(alloc, store, table, right)? {
            None => Ok(None),
            Some(not_right) => {
                let found = iff_pair(store, left, not_left, right, not_right)?;
                Ok(Some(found))
            }
        },
    }
}

/// Iff of two formulas that come with their negations.
fn iff_pair(
    store: &mut Store,
    a: TermId,
    not_a: TermId,
    b: TermId,
    not_b: TermId,
) -> Result<TermId, AllocError>
    requires a_formula { HasSort Bool store.old a }
    requires not_a_formula { HasSort Bool store.old not_a }
    requires b_formula { HasSort Bool store.old b }
    requires not_b_formula { HasSort Bool store.old not_b }
    ensures shows { IfOk result (λ id. Shows store.new id (iff_pair (tree_at store.old a) (tree_at store.old not_a) (tree_at store.old b) (tree_at store.old not_b))) }
    ensures extends { Extends store.old store.new }
{
    if is_same(store, not_a, b) {
        return truth(store, false);
    }
    let a_first = is_before(store, a, not_a);
    let b_first = is_before(store, b, not_b);
    let odd = a_first != b_first;
    let base_a = choose(a_first, a, not_a);
    let other_a = choose(a_first, not_a, a);
    let base_b = choose(b_first, b, not_b);
    let other_b = choose(b_first, not_b, b);
    iff_sorted(store, odd, base_a, other_a, base_b, other_b)
}

/// Iff of two bases in order, the second one negated where `odd`.
fn iff_sorted(
    store: &mut Store,
    odd: bool,
    a: TermId,
    not_a: TermId,
    b: TermId,
    not_b: TermId,
) -> Result<TermId, AllocError>
    requires a_formula { HasSort Bool store.old a }
    requires not_a_formula { HasSort Bool store.old not_a }
    requires b_formula { HasSort Bool store.old b }
    requires not_b_formula { HasSort Bool store.old not_b }
    ensures shows { IfOk result (λ id. Shows store.new id (iff_sorted odd (tree_at store.old a) (tree_at store.old not_a) (tree_at store.old b) (tree_at store.old not_b))) }
    ensures extends { Extends store.old store.new }
{
    if is_before(store, a, b) {
        let second = choose(odd, not_b, b);
        store.intern(Term::Iff(a, second))
    } else {
        let second = choose(odd, not_a, a);
        store.intern(Term::Iff(b, second))
    }
}

/// The first of two terms where `first`, and else the second.
fn choose(first: bool, a: TermId, b: TermId) -> TermId
    ensures { result ≡ (if first then a else b) }
{
    if first { a } else { b }
}
