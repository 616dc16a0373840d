//! The rules `rw`, `def` and `and`.
ghost use Rattle.std.specs.Prelude.{◌≡◌, ◌-◌, ◌∷◌, [], not, true, IfOk, IfSome, OnOk, IsTrue, List, Some, slice_get};
ghost use Rattle.std.specs.Option.{option_map};
ghost use Rattle.qterm.specs.declared.name.Sort.TheVariants.{Bool};
ghost use Rattle.qterm.specs.Tree.{Tree, Var, sort_of};
ghost use Rattle.qterm.specs.Store.{Has, HasSort, Extends, Shows, tree_at};
ghost use Rattle.cert_items.specs.Held.{IfIn, AllIn, shown_all, shown_some};
ghost use Rattle.cert_items.specs.State.{IsState, items_of};
ghost use Rattle.qcanon.specs.Chain.{AreForms};
ghost use Rattle.tac_cert.specs.Names as texts;
ghost use Rattle.tac_cert.specs.Items.{Item, Formula, formula_at as formula_of};
ghost use Rattle.tac_cert.specs.Formulas as rules;

use crate::canons::are_equal;
use cert_items::{Held, State, are_fresh, formula_at, is_int, occurs_in, same_sort};
use qcanon::Forms;
use qterm::{Name, Sort, Store, Term, TermId};
use sqlite_items::Items;
use std::alloc::{AllocError, Global};

/// One formula.
pub(crate) fn one(alloc: Global, store: &Store, id: TermId) -> Result<Items<Held>, AllocError>
    requires formula { HasSort Bool store.now id }
    ensures shown { IfOk result (λ hs. shown_all store.now hs ≡ Formula (tree_at store.now id) ∷ []) }
    ensures items { IfOk result (AllIn store.now) }
{
    let _size = store.size();
    let mut items = Items::new(alloc);
    items.push(Held::Formula(id))?;
    Ok(items)
}

/// `rw`: a formula with the canonical form of an item.
pub fn rewrite(
    alloc: Global,
    store: &mut Store,
    forms: &mut Forms,
    state: &State,
    item: u32,
    formula: TermId,
) -> Result<Option<Items<Held>>, AllocError>
    requires state { IsState store.old state.now }
    requires has { Has store.old formula }
    requires forms { AreForms store.old forms.old }
    ensures gives { IfOk result (λ o. shown_some store.new o ≡ rules.rewrite (items_of store.old state.now) item (tree_at store.old formula)) }
    ensures items { IfOk result (IfIn store.new) }
    ensures forms { OnOk result (AreForms store.new forms.new) }
    ensures extends { Extends store.old store.new }
{
    if is_int(store.sort(formula)) {
        return Ok(None);
    }
    if has_form(alloc, store, forms, state, item, formula)? {
        Ok(Some(one(alloc, store, formula)?))
    } else {
        Ok(None)
    }
}

/// Whether an item is a formula with the canonical form of a term.
pub(crate) fn has_form(
    alloc: Global,
    store: &mut Store,
    forms: &mut Forms,
    state: &State,
    item: u32,
    term: TermId,
) -> Result<bool, AllocError>
    requires state { IsState store.old state.now }
    requires has { Has store.old term }
    requires forms { AreForms store.old forms.old }
    ensures value { IfOk result (λ yes. yes ≡ rules.same_canon (formula_of (items_of store.old state.now) item) (tree_at store.old term)) }
    ensures forms { OnOk result (AreForms store.new forms.new) }
    ensures extends { Extends store.old store.new }
{
    match formula_at(state.items(), item) {
        None => Ok(false),
        Some(id) => {
            let same = are_equal(alloc, store, forms, id, term)?;
            Ok(same)
        }
    }
}

/// The equation of two terms of one sort.
pub(crate) fn equation(store: &mut Store, a: TermId, b: TermId) -> Result<TermId, AllocError>
    requires left { Has store.old a }
    requires right { Has store.old b }
    requires sorts { IsTrue (texts.same_sort (sort_of (tree_at store.old a)) (sort_of (tree_at store.old b))) }
    ensures shows { IfOk result (λ r. Shows store.new r (rules.equation (tree_at store.old a) (tree_at store.old b))) }
    ensures extends { Extends store.old store.new }
{
    if is_int(store.sort(a)) {
        store.intern(Term::Eq(a, b))
    } else {
        store.intern(Term::Iff(a, b))
    }
}

/// `def`: a fresh name is put for a term that it isn't in.
pub fn define(
    alloc: Global,
    store: &mut Store,
    state: &State,
    name: &Name,
    term: TermId,
) -> Result<Option<Items<Held>>, AllocError>
    requires state { IsState store.old state.now }
    requires has { Has store.old term }
    ensures gives { IfOk result (λ o. shown_some store.new o ≡ rules.define (items_of store.old state.now) name.now (tree_at store.old term)) }
    ensures items { IfOk result (IfIn store.new) }
    ensures extends { Extends store.old store.new }
{
    if define_fits(alloc, store, state, name, term)? {
        Ok(Some(define_new(alloc, store, name, term)?))
    } else {
        Ok(None)
    }
}

/// Whether the name has the sort of the term, is fresh, and isn't in the term.
fn define_fits(
    alloc: Global,
    store: &mut Store,
    state: &State,
    name: &Name,
    term: TermId,
) -> Result<bool, AllocError>
    requires state { IsState store.old state.now }
    requires has { Has store.old term }
    ensures value { IfOk result (λ yes. yes ≡ rules.define_fits (items_of store.old state.now) name.now (tree_at store.old term)) }
    ensures extends { Extends store.old store.new }
{
    if !same_sort(name.sort(), store.sort(term)) {
        return Ok(false);
    }
    let names = [copy_name(alloc, name)?];
    if !are_fresh(alloc, store, state, &names)? {
        return Ok(false);
    }
    let occurs = occurs_in(alloc, store, state, name, term)?;
    Ok(!occurs)
}

/// The equation of the name and the term.
fn define_new(
    alloc: Global,
    store: &mut Store,
    name: &Name,
    term: TermId,
) -> Result<Items<Held>, AllocError>
    requires has { Has store.old term }
    requires sorts { IsTrue (texts.same_sort name.now.sort (sort_of (tree_at store.old term))) }
    ensures shown { IfOk result (λ hs. shown_all store.new hs ≡ Formula (rules.equation (Var name.now) (tree_at store.old term)) ∷ []) }
    ensures items { IfOk result (AllIn store.new) }
    ensures extends { Extends store.old store.new }
{
    let var = store.intern(Term::Var(copy_name(alloc, name)?))?;
    let equal = equation(store, var, term)?;
    let items = one(alloc, store, equal)?;
    Ok(items)
}

/// `and`: a child of a conjunction, counted from 1.
pub fn part(
    alloc: Global,
    store: &Store,
    state: &State,
    item: u32,
    part: u32,
) -> Result<Option<Items<Held>>, AllocError>
    requires state { IsState store.now state.now }
    ensures gives { IfOk result (λ o. shown_some store.now o ≡ rules.part (items_of store.now state.now) item part) }
    ensures items { IfOk result (IfIn store.now) }
{
    if part == 0 {
        return Ok(None);
    }
    match conjunct(store, state, item, part as usize - 1) {
        None => Ok(None),
        Some(id) => Ok(Some(one(alloc, store, id)?)),
    }
}

/// The child of a conjunction at a place, counted from 0.
fn conjunct(store: &Store, state: &State, item: u32, at: usize) -> Option<TermId>
    requires state { IsState store.now state.now }
    ensures is { option_map (tree_at store.now) result ≡ rules.child (rules.conjuncts (formula_of (items_of store.now state.now) item)) at }
    ensures formula { IfSome result (HasSort Bool store.now) }
{
    match formula_at(state.items(), item) {
        None => None,
        Some(id) => child_of(store, id, at),
    }
}

/// The child of a conjunction at a place, counted from 0.
fn child_of(store: &Store, id: TermId, at: usize) -> Option<TermId>
    requires has { Has store.now id }
    ensures is { option_map (tree_at store.now) result ≡ rules.child (rules.conjuncts (Some (tree_at store.now id))) at }
    ensures formula { IfSome result (HasSort Bool store.now) }
{
    match store.view(id) {
        Term::And(all) => id_at(all.as_slice(), at),
        _ => None,
    }
}

/// The id at a place.
fn id_at(ids: &[TermId], at: usize) -> Option<TermId>
    ensures { result ≡ slice_get ids.now at }
{
    ids.get(at).copied()
}

/// The same name.
fn copy_name(alloc: Global, name: &Name) -> Result<Name, AllocError>
    ensures { IfOk result (λ n. n ≡ name.now) }
{
    Name::new(alloc, name.text(), name.sort())
}
