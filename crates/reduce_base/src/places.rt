//! The parts of canonical formulas, at their places among the items of a certificate.
ghost use Rattle.std.specs.Prelude.{◌≡◌, ◌↔◌, length, ◌∷◌, ◌++◌, [], List, ℕ, Some, None, OnOk, IfOk, All, map, true, false, IsTrue, slice_get, MatchOption};
ghost use Rattle.qterm.specs.Tree.{Tree, And, False};
ghost use Rattle.qterm.specs.Store.{Has, HasSort, tree_at, trees_of, trees_at};
ghost use Rattle.qterm.specs.Kids.{listed};
ghost use Rattle.qterm.specs.declared.name.Sort.TheVariants.{Bool};
ghost use Rattle.indexmap.specs.IndexSet.{insert_all, insert_key};
ghost use Rattle.qwalk.specs.Walk.{same_id};
ghost use Rattle.qlin.specs.Junction.{members};
ghost use Rattle.qlin.specs.CanonList.{spread, is_in};
ghost use Rattle.reduce_base.specs.declared.places.Place.{Place};
ghost use Rattle.reduce_base.specs.Trace.{LeadsOn, IsAt, ArePlaced};

use crate::trace::{Trace, next_number, number_at, number_behind, push};
use indexmap::IndexSet;
use qterm::{Store, Term, TermId};
use std::alloc::{AllocError, Global};
use tac_cert::Step;

/// A formula with the number of its item.
#[derive(Clone, Copy, Debug)]
pub(crate) struct Place {
    pub number: u32,
    pub id: TermId,
}

/// Takes the children of a conjunction, the item of that number, as items of their own.
fn push_children(
    store: &Store,
    trace: &mut Trace,
    number: u32,
    children: &[TermId],
    places: &mut Vec<Place>,
) -> Result<(), AllocError>
    requires formulas { All (HasSort Bool store.now) children.now }
    requires item { (c : ℕ) × IsAt trace.old.items.items number c × (tree_at store.now c ≡ And (trees_at store.now children.now)) }
    requires placed { ArePlaced trace.old.items.items places.old.items }
    ensures items { OnOk result (trace.new.items.items ≡ trace.old.items.items ++ children.now) }
    ensures leads { OnOk result (LeadsOn store.now trace.old trace.new) }
    ensures parts { OnOk result (map (λ p. p.id) places.new.items ≡ map (λ p. p.id) places.old.items ++ children.now) }
    ensures placed { OnOk result (ArePlaced trace.new.items.items places.new.items) }
{
    store.is_lawful();
    for at in 0..children.len() {
        let id = children[at];
        let part = number_behind(at)?;
        let behind = next_number(trace)?;
        push(store, trace, Step::Part { item: number, part }, id)?;
        places.push(Place { number: behind, id })?;
    }
    Ok(())
}

/// Takes the parts of a canonical formula, the item of that number: the children of a conjunction, nothing for `true`, and else
/// itself.
fn push_parts(
    store: &Store,
    trace: &mut Trace,
    number: u32,
    form: TermId,
    places: &mut Vec<Place>,
) -> Result<(), AllocError>
    requires has { HasSort Bool store.now form }
    requires item { IsAt trace.old.items.items number form }
    requires placed { ArePlaced trace.old.items.items places.old.items }
    requires known { All (Has store.now) (map (λ p. p.id) places.old.items) }
    ensures items { OnOk result ((more : List ℕ) × (trace.new.items.items ≡ trace.old.items.items ++ more)) }
    ensures leads { OnOk result (LeadsOn store.now trace.old trace.new) }
    ensures parts { OnOk result (trees_of store.now (map (λ p. p.id) places.new.items) ≡ trees_of store.now (map (λ p. p.id) places.old.items) ++ listed (members true (tree_at store.now form))) }
    ensures placed { OnOk result (ArePlaced trace.new.items.items places.new.items) }
    ensures known { OnOk result (All (Has store.now) (map (λ p. p.id) places.new.items)) }
{
    store.is_lawful();
    match store.view(form) {
        Term::True => Ok(()),
        Term::And(all) => {
            push_children(store, trace, number, all.as_slice(), places)?;
            Ok(())
        }
        _ => {
            places.push(Place { number, id: form })?;
            Ok(())
        }
    }
}

/// The parts of canonical formulas, which are the items behind so many others.
pub(crate) fn place_all(
    alloc: Global,
    store: &Store,
    trace: &mut Trace,
    behind: usize,
    forms: &[TermId],
) -> Result<Vec<Place>, AllocError>
    requires has { All (HasSort Bool store.now) forms.now }
    requires items { (before : List ℕ) × (trace.old.items.items ≡ before ++ forms.now) × (length before ≡ behind) }
    ensures leads { IfOk result (λ places. LeadsOn store.now trace.old trace.new) }
    ensures parts { IfOk result (λ places. trees_of store.now (map (λ p. p.id) places.items) ≡ spread (trees_of store.now forms.now)) }
    ensures placed { IfOk result (λ places. ArePlaced trace.new.items.items places.items) }
    ensures known { IfOk result (λ places. All (Has store.now) (map (λ p. p.id) places.items)) }
{
    let mut places = Vec::new(alloc);
    for at in 0..forms.len() {
        let number = number_at(behind, at)?;
        push_parts(store, trace, number, forms[at], &mut places)?;
    }
    Ok(places)
}

/// The places without later ones of the same formula.
pub(crate) fn once(alloc: Global, places: &[Place]) -> Result<Vec<Place>, AllocError>
    ensures kept { IfOk result (λ kept. map (λ p. p.id) kept.items ≡ insert_all same_id [] (map (λ p. p.id) places.now)) }
    ensures placed { IfOk result (λ kept. (is : List ℕ) → ArePlaced is places.now → ArePlaced is kept.items) }
{
    let mut seen = IndexSet::new(alloc);
    let mut kept = Vec::new(alloc);
    for place in places {
        push_new(&mut seen, &mut kept, *place)?;
    }
    Ok(kept)
}

/// Takes a place, where its formula isn't there.
fn push_new(
    seen: &mut IndexSet<TermId>,
    kept: &mut Vec<Place>,
    place: Place,
) -> Result<(), AllocError>
    requires same { seen.old.keys ≡ map (λ p. p.id) kept.old.items }
    ensures same { OnOk result (seen.new.keys ≡ map (λ p. p.id) kept.new.items) }
    ensures keys { OnOk result (seen.new.keys ≡ insert_key same_id seen.old.keys place.id) }
    ensures placed { OnOk result ((is : List ℕ) → ArePlaced is kept.old.items → IsAt is place.number place.id → ArePlaced is kept.new.items) }
{
    if !seen.insert(place.id)? {
        return Ok(());
    }
    kept.push(place)?;
    Ok(())
}

/// The place of the first of the formulas that is `false`.
pub(crate) fn first_false(store: &Store, ids: &[TermId]) -> Option<usize>
    requires has { All (Has store.now) ids.now }
    ensures { MatchOption result (is_in False (trees_of store.now ids.now) ≡ false) (λ at. (i : ℕ) × (slice_get ids.now at ≡ Some i) × (tree_at store.now i ≡ False) × (is_in False (trees_of store.now ids.now) ≡ true)) }
{
    for at in 0..ids.len() {
        if is_false(store, ids[at]) {
            return Some(at);
        }
    }
    None
}

/// Whether a formula is `false`.
fn is_false(store: &Store, id: TermId) -> bool
    requires has { Has store.now id }
    ensures { IsTrue result ↔ (tree_at store.now id ≡ False) }
{
    matches!(store.view(id), Term::False)
}
