//! The rule `subst`: a term put for another at each outermost place.
ghost use Rattle.std.specs.Prelude.{◌≡◌, ◌∷◌, [], IfOk, OnOk, IsTrue, List};
ghost use Rattle.std.specs.List.{AllZip};
ghost use Rattle.qterm.specs.declared.name.Sort.TheVariants.{Bool};
ghost use Rattle.qterm.specs.Tree.{Tree, sort_of};
ghost use Rattle.qterm.specs.Store.{Has, HasSort, Extends, tree_at};
ghost use Rattle.qterm.specs.Kids.{kids, listed};
ghost use Rattle.cert_items.specs.Held.{IfIn, AllIn, shown_all, shown_some};
ghost use Rattle.cert_items.specs.State.{IsState, items_of};
ghost use Rattle.qcanon.specs.Chain.{AreForms};
ghost use Rattle.cert_rules.specs.Depths.{AreDepths};
ghost use Rattle.cert_rules.specs.Replacing.{CanReplace, IsReplaced};
ghost use Rattle.tac_cert.specs.Names as texts;
ghost use Rattle.tac_cert.specs.Items.{formula_at as formula_of};
ghost use Rattle.tac_cert.specs.Formulas as rules;

use crate::depth::{Depths, is_shallow};
use crate::formulas::{equation, has_form, one};
use cert_items::{Held, State, formula_at, same_sort};
use qcanon::Forms;
use qterm::{Store, TermId};
use qwalk::{Fold, fold_terms};
use sqlite_items::Items;
use std::alloc::{AllocError, Global};

/// `subst`: an item with a term put for another, which are equal by an item.
pub fn substitute(
    alloc: Global,
    store: &mut Store,
    forms: &mut Forms,
    depths: &mut Depths,
    state: &State,
    item: u32,
    from: TermId,
    to: TermId,
    target: u32,
) -> Result<Option<Items<Held>>, AllocError>
    requires state { IsState store.old state.now }
    requires from { Has store.old from }
    requires to { Has store.old to }
    requires forms { AreForms store.old forms.old }
    requires depths { AreDepths store.old depths.old }
    ensures gives { IfOk result (λ o. shown_some store.new o ≡ rules.substitute (items_of store.old state.now) item (tree_at store.old from) (tree_at store.old to) target) }
    ensures items { IfOk result (IfIn store.new) }
    ensures forms { OnOk result (AreForms store.new forms.new) }
    ensures depths { OnOk result (AreDepths store.new depths.new) }
    ensures extends { Extends store.old store.new }
{
    match formula_at(state.items(), target) {
        None => Ok(None),
        Some(id) => {
            if is_equation(alloc, store, forms, state, item, from, to)? {
                put(alloc, store, depths, from, to, id)
            } else {
                Ok(None)
            }
        }
    }
}

/// Whether two terms have one sort, and an item says that they are equal.
fn is_equation(
    alloc: Global,
    store: &mut Store,
    forms: &mut Forms,
    state: &State,
    item: u32,
    from: TermId,
    to: TermId,
) -> Result<bool, AllocError>
    requires state { IsState store.old state.now }
    requires from { Has store.old from }
    requires to { Has store.old to }
    requires forms { AreForms store.old forms.old }
    ensures value { IfOk result (λ yes. yes ≡ rules.is_equation (items_of store.old state.now) item (tree_at store.old from) (tree_at store.old to)) }
    ensures forms { OnOk result (AreForms store.new forms.new) }
    ensures extends { Extends store.old store.new }
{
    if !same_sort(store.sort(from), store.sort(to)) {
        return Ok(false);
    }
    let said = says_equal(alloc, store, forms, state, item, from, to)?;
    Ok(said)
}

/// Whether an item says that two terms of one sort are equal.
fn says_equal(
    alloc: Global,
    store: &mut Store,
    forms: &mut Forms,
    state: &State,
    item: u32,
    from: TermId,
    to: TermId,
) -> Result<bool, AllocError>
    requires state { IsState store.old state.now }
    requires from { Has store.old from }
    requires to { Has store.old to }
    requires sorts { IsTrue (texts.same_sort (sort_of (tree_at store.old from)) (sort_of (tree_at store.old to))) }
    requires forms { AreForms store.old forms.old }
    ensures value { IfOk result (λ yes. yes ≡ rules.same_canon (formula_of (items_of store.old state.now) item) (rules.equation (tree_at store.old from) (tree_at store.old to))) }
    ensures forms { OnOk result (AreForms store.new forms.new) }
    ensures extends { Extends store.old store.new }
{
    let equal = equation(store, from, to)?;
    let said = has_form(alloc, store, forms, state, item, equal)?;
    Ok(said)
}

/// The formula with a term put for another of the same sort, where it is not too deep.
fn put(
    alloc: Global,
    store: &mut Store,
    depths: &mut Depths,
    from: TermId,
    to: TermId,
    id: TermId,
) -> Result<Option<Items<Held>>, AllocError>
    requires from { Has store.old from }
    requires to { Has store.old to }
    requires sorts { IsTrue (texts.same_sort (sort_of (tree_at store.old from)) (sort_of (tree_at store.old to))) }
    requires formula { HasSort Bool store.old id }
    requires depths { AreDepths store.old depths.old }
    ensures gives { IfOk result (λ o. shown_some store.new o ≡ rules.if_shallow (rules.replaced (tree_at store.old from) (tree_at store.old to) (tree_at store.old id))) }
    ensures items { IfOk result (IfIn store.new) }
    ensures depths { OnOk result (AreDepths store.new depths.new) }
    ensures extends { Extends store.old store.new }
{
    let mut replacement = Replacement { alloc, from, to };
    let new = fold_terms(alloc, store, &mut replacement, id)?;
    if is_shallow(alloc, store, depths, new)? {
        Ok(Some(one(alloc, store, new)?))
    } else {
        Ok(None)
    }
}

/// A term that is put for another of the same sort.
#[derive(Drop)]
struct Replacement {
    alloc: Global,
    from: TermId,
    to: TermId,
}

impl Fold<TermId> for Replacement {
    type Task = (TermId, TermId);

    ghost task = { λ r. (r.from, r.to) };

    ghost ready = { λ r ts. CanReplace ts r.from r.to };

    ghost right = { λ r ts t o. IsReplaced ts r.from r.to t o };

    fn known(&self, store: &Store, id: TermId) -> Option<TermId> {
        let _size = store.size();
        if id == self.from { Some(self.to) } else { None }
    }

    fn node(
        &mut self,
        store: &mut Store,
        id: TermId,
        outs: &[TermId],
    ) -> Result<TermId, AllocError> {
        if id == self.from {
            return Ok(self.to);
        }
        let new = rebuilt(self.alloc, store, self.from, self.to, id, outs)?;
        Ok(new)
    }
}

/// The term with these children in the place of its own, in which one is put for another.
fn rebuilt(
    alloc: Global,
    store: &mut Store,
    from: TermId,
    to: TermId,
    id: TermId,
    outs: &[TermId],
) -> Result<TermId, AllocError>
    requires has { Has store.old id }
    requires other { id ≡ from → ⊥ }
    requires ready { CanReplace store.old from to }
    requires children { AllZip (IsReplaced store.old from to) (listed (kids (tree_at store.old id))) outs.now }
    ensures replaced { IfOk result (IsReplaced store.new from to (tree_at store.old id)) }
    ensures extends { Extends store.old store.new }
{
    store.is_distinct();
    let term = store.view(id).with_children(alloc, outs)?;
    let new = store.intern(term)?;
    Ok(new)
}
