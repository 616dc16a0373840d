//! And and Or of canonical formulas.
ghost use Rattle.std.specs.Prelude.{◌≡◌, IfOk, OnOk, MatchOption, All, true, false, not, ◌++◌};
ghost use Rattle.qterm.specs.Store.{HasSort, Shows, Extends, tree_at, trees_at};
ghost use Rattle.qterm.specs.declared.name.Sort.TheVariants.{Bool};
ghost use Rattle.qlin.specs.Junction.{has_constant, junction, members, packed};
ghost use Rattle.qnegation.specs.Junction.{IsGathered, AreMembers};

use crate::pair::truth;
use qlin::sort_terms;
use qterm::{Store, Term, TermId, TermIds};
use std::alloc::{AllocError, Global};

/// Adds the members of a formula: none where it is the unit. It tells whether it is the constant that absorbs.
fn add_members(
    store: &Store,
    is_and: bool,
    id: TermId,
    all: &mut Vec<TermId>,
) -> Result<bool, AllocError>
    requires { HasSort Bool store.now id }
    ensures { IfOk result (λ b. AreMembers store.now is_and id all.old.items b all.new.items) }
{
    match store.view(id) {
        Term::True => Ok(!is_and),
        Term::False => Ok(is_and),
        Term::And(ids) => {
            if is_and {
                all.extend_from_slice(ids.as_slice())?;
            } else {
                all.push(id)?;
            }
            Ok(false)
        }
        Term::Or(ids) => {
            if is_and {
                all.push(id)?;
            } else {
                all.extend_from_slice(ids.as_slice())?;
            }
            Ok(false)
        }
        _ => {
            all.push(id)?;
            Ok(false)
        }
    }
}

/// All members, where none of the formulas absorbs the others.
fn gather(
    alloc: Global,
    store: &Store,
    is_and: bool,
    ids: &[TermId],
) -> Result<Option<Vec<TermId>>, AllocError>
    requires { All (HasSort Bool store.now) ids.now }
    ensures { IfOk result (λ o. MatchOption o (has_constant (not is_and) (trees_at store.now ids.now) ≡ true) (λ v. IsGathered store.now is_and ids.now v.items)) }
{
    let mut all = Vec::new(alloc);
    for id in ids {
        if add_members(store, is_and, *id, &mut all)? {
            return Ok(None);
        }
    }
    Ok(Some(all))
}

/// One term alone, or And or Or over them.
fn pack(store: &mut Store, is_and: bool, ids: Vec<TermId>) -> Result<TermId, AllocError>
    requires { All (HasSort Bool store.old) ids.items }
    ensures shows { IfOk result (λ r. Shows store.new r (packed is_and (trees_at store.old ids.items))) }
    ensures extends { Extends store.old store.new }
{
    let count = ids.as_slice().len();
    if count == 0 {
        return truth(store, is_and);
    }
    if count == 1 {
        return Ok(ids.as_slice()[0]);
    }
    let ids = TermIds::from_vec(ids);
    if is_and {
        store.intern(Term::And(ids))
    } else {
        store.intern(Term::Or(ids))
    }
}

/// The canonical And or Or of canonical formulas: the constant that absorbs, or the members in order, each once.
pub fn canonical_junction(
    alloc: Global,
    store: &mut Store,
    is_and: bool,
    ids: &[TermId],
) -> Result<TermId, AllocError>
    requires formulas { All (HasSort Bool store.old) ids.now }
    ensures shows { IfOk result (λ r. Shows store.new r (junction is_and (trees_at store.old ids.now))) }
    ensures extends { Extends store.old store.new }
{
    match gather(alloc, store, is_and, ids)? {
        None => truth(store, !is_and),
        Some(mut all) => {
            let sorted = sort_terms(alloc, store, &mut all)?;
            pack(store, is_and, sorted)
        }
    }
}
