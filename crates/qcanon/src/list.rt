//! The canonical list of formulas.
ghost use Rattle.std.specs.Prelude.{◌≡◌, ◌++◌, All, IfOk, IfErr, OnOk, [], true};
ghost use Rattle.indexmap.specs.IndexSet.{insert_all};
ghost use Rattle.qterm.specs.Tree.{False};
ghost use Rattle.qterm.specs.Store.{Has, HasSort, Extends, tree_at, trees_of};
ghost use Rattle.qterm.specs.declared.name.Sort.TheVariants.{Bool};
ghost use Rattle.qterm.specs.Kids.{listed};
ghost use Rattle.qwalk.specs.Walk.{same_id};
ghost use Rattle.qlin.specs.Order.{same};
ghost use Rattle.qlin.specs.Junction.{members};
ghost use Rattle.qlin.specs.CanonList.{canon_list, spread, tidied};
ghost use Rattle.qcanon.specs.Walk.{NamesFault};
ghost use Rattle.qcanon.specs.List.{IsFirstFalse};
ghost use Rattle.qcanon.specs.Chain.{AreForms};

use crate::error::CanonError;
use crate::forms::Forms;
use crate::walk::{first_fault, ids_of};
use indexmap::IndexSet;
use qterm::{Store, Term, TermId, TermIds};
use qwalk::fold_all;
use std::alloc::{AllocError, Global};

/// The canonical formulas of `list`, in order: conjunctions replaced by their parts, `true` and later repeats dropped, and
/// `false` alone where one is false.
///
/// The first formula without a canonical form is told as `TooWide`, with its first subterm that has none. Each distinct subterm
/// of the whole list is asked once.
pub fn canon_list(alloc: Global, store: &mut Store, list: &[TermId]) -> Result<TermIds, CanonError>
    requires has { All (Has store.old) list.now }
    ensures has { IfOk result (λ ids. All (Has store.new) ids) }
    ensures listed { IfOk result (λ ids. canon_list (trees_of store.old list.now) ≡ Ok (trees_of store.new ids)) }
    ensures formulas { All (HasSort Bool store.old) list.now → IfOk result (λ ids. All (HasSort Bool store.new) ids) }
    ensures too_wide { IfErr result (NamesFault store.new (canon_list (trees_of store.old list.now))) }
    ensures extends { Extends store.old store.new }
{
    let mut forms = Forms::new(alloc);
    canon_list_with(alloc, store, &mut forms, list)
}

/// The canonical list of formulas, with a table that the caller keeps over calls: no subterm that it knows is walked again.
pub fn canon_list_with(
    alloc: Global,
    store: &mut Store,
    forms: &mut Forms,
    list: &[TermId],
) -> Result<TermIds, CanonError>
    requires has { All (Has store.old) list.now }
    requires forms { AreForms store.old forms.old }
    ensures has { IfOk result (λ ids. All (Has store.new) ids) }
    ensures listed { IfOk result (λ ids. canon_list (trees_of store.old list.now) ≡ Ok (trees_of store.new ids)) }
    ensures formulas { All (HasSort Bool store.old) list.now → IfOk result (λ ids. All (HasSort Bool store.new) ids) }
    ensures too_wide { IfErr result (NamesFault store.new (canon_list (trees_of store.old list.now))) }
    ensures forms { AreForms store.new forms.new }
    ensures extends { Extends store.old store.new }
{
    store.is_lawful();
    let answers = fold_all(alloc, store, forms, list)?;
    let outs = forms.settle_all(store, answers.as_slice())?;
    if let Some(term) = first_fault(outs.as_slice()) {
        return Err(CanonError::TooWide { term });
    }
    let ids = ids_of(alloc, outs.as_slice())?;
    let parts = tidied(alloc, store, ids.as_slice())?;
    Ok(TermIds::from_vec(parts))
}

/// The formulas with conjunctions replaced by their parts, and `true` and later repeats dropped; `false` alone where one is
/// false.
fn tidied(alloc: Global, store: &Store, ids: &[TermId]) -> Result<Vec<TermId>, AllocError>
    requires has { All (Has store.now) ids.now }
    ensures same { IfOk result (λ v. trees_of store.now v.items ≡ tidied (trees_of store.now ids.now)) }
    ensures has { IfOk result (λ v. All (Has store.now) v.items) }
{
    store.is_distinct();
    if let Some(id) = first_false(store, ids) {
        let mut alone = Vec::new(alloc);
        alone.push(id)?;
        return Ok(alone);
    }
    let parts = spread(alloc, store, ids)?;
    let kept = once(alloc, parts.as_slice())?;
    Ok(kept)
}

/// The first of the formulas that is `false`.
fn first_false(store: &Store, ids: &[TermId]) -> Option<TermId>
    requires has { All (Has store.now) ids.now }
    ensures { IsFirstFalse store.now ids.now result }
{
    for id in ids {
        if is_false(store, *id) {
            return Some(*id);
        }
    }
    None
}

/// Whether a formula is `false`.
fn is_false(store: &Store, id: TermId) -> bool
    requires has { Has store.now id }
    ensures { result ≡ same False (tree_at store.now id) }
{
    match store.view(id) {
        Term::False => true,
        _ => false,
    }
}

/// The formulas with conjunctions replaced by their parts, and `true` dropped.
fn spread(alloc: Global, store: &Store, ids: &[TermId]) -> Result<Vec<TermId>, AllocError>
    requires has { All (Has store.now) ids.now }
    ensures same { IfOk result (λ v. trees_of store.now v.items ≡ spread (trees_of store.now ids.now)) }
    ensures has { IfOk result (λ v. All (Has store.now) v.items) }
{
    let mut parts = Vec::new(alloc);
    for id in ids {
        push_parts(store, *id, &mut parts)?;
    }
    Ok(parts)
}

/// Puts a formula at the end: a conjunction's parts in its place, and nothing for `true`.
fn push_parts(store: &Store, id: TermId, parts: &mut Vec<TermId>) -> Result<(), AllocError>
    requires has { Has store.now id }
    requires parts { All (Has store.now) parts.old.items }
    ensures same { OnOk result (trees_of store.now parts.new.items ≡ trees_of store.now parts.old.items ++ listed (members true (tree_at store.now id))) }
    ensures has { OnOk result (All (Has store.now) parts.new.items) }
{
    match store.view(id) {
        Term::True => Ok(()),
        Term::And(all) => {
            parts.extend_from_slice(all.as_slice())?;
            Ok(())
        }
        _ => {
            parts.push(id)?;
            Ok(())
        }
    }
}

/// The formulas without later repeats.
fn once(alloc: Global, ids: &[TermId]) -> Result<Vec<TermId>, AllocError>
    ensures { IfOk result (λ v. v.items ≡ insert_all same_id [] ids.now) }
{
    let mut seen = IndexSet::new(alloc);
    for id in ids {
        seen.insert(*id)?;
    }
    let kept = Vec::from_slice(alloc, seen.as_slice())?;
    Ok(kept)
}
