//! The canonical list of a goal, with the steps of a certificate that lead to it.
ghost use Rattle.std.specs.Prelude.{◌≡◌, ◌<◌, ◌++◌, ℕ, List, All, IfOk, IfErr, Some, length, map, slice_get, true, false};
ghost use Rattle.std.specs.List.{AllZip};
ghost use Rattle.qterm.specs.Store.{Has, HasSort, Extends, tree_at, trees_of};
ghost use Rattle.qterm.specs.declared.name.Sort.TheVariants.{Bool};
ghost use Rattle.qwalk.specs.Subterms.{HasSubterms};
ghost use Rattle.qterm.specs.Tree.{False};
ghost use Rattle.qlin.specs.CanonList.{tidied, is_in};
ghost use Rattle.tac_cert.specs.Items.{Item};
ghost use Rattle.tac_cert.specs.Accepts.{as_items};
ghost use Rattle.goal_depth.specs.Depths.{AreShallow};
ghost use Rattle.proof_conv.specs.Leaves.{StepsLeave};
ghost use Rattle.reducer_iface.specs.Listed.{IsListed};
ghost use Rattle.reduce_base.specs.Fault.{IsFault};
ghost use Rattle.reduce_base.specs.Forms.{IsForm};
ghost use Rattle.reduce_base.specs.Trace.{shown, LeadsOn, ArePlaced, AreChosen};

use crate::fault::Fault;
use crate::forms::canonical_forms;
use crate::places::{Place, first_false, once, place_all};
use crate::trace::{Trace, number_at, rewrite_all};
use qterm::{Store, TermId, TermIds};
use qwalk::count_subterms;
use sqlite_items::Items;
use std::alloc::{AllocError, Global};
use tac_cert::Step;

/// The canonical list of a goal, with the steps of a certificate that lead from the goal's formulas to it.
#[derive(Drop)]
pub struct Listed {
    pub formulas: TermIds,
    pub steps: Items<Step>,
}

/// The canonical list of a goal, where it is defined and has at most `most` distinct subterms.
pub fn list_goal(
    alloc: Global,
    store: &mut Store,
    goal: &[TermId],
    most: usize,
) -> Result<Listed, Fault>
    requires formulas { All (HasSort Bool store.old) goal.now }
    requires shallow { AreShallow (trees_of store.old goal.now) }
    ensures listed { IfOk result (λ l. IsListed most (trees_of store.old goal.now) (trees_of store.new l.formulas)) }
    ensures formulas { IfOk result (λ l. All (HasSort Bool store.new) l.formulas) }
    ensures shallow { IfOk result (λ l. AreShallow (trees_of store.new l.formulas)) }
    ensures leads { IfOk result (λ l. StepsLeave store.new (as_items (trees_of store.old goal.now)) l.steps (as_items (trees_of store.new l.formulas))) }
    ensures fault { IfErr result (IsFault most store.new (trees_of store.old goal.now)) }
    ensures extends { Extends store.old store.new }
{
    store.is_lawful();
    match canonical_forms(alloc, store, goal) {
        Ok(forms) => match list_forms(alloc, store, goal, forms.as_slice(), most) {
            Ok(listed) => Ok(listed),
            Err(fault) => Err(fault),
        },
        Err(cause) => Err(Fault::from(cause)),
    }
}

/// The canonical list of a goal of which these are the canonical forms, where it has at most `most` distinct subterms.
fn list_forms(
    alloc: Global,
    store: &Store,
    goal: &[TermId],
    forms: &[TermId],
    most: usize,
) -> Result<Listed, Fault>
    requires formulas { All (HasSort Bool store.now) goal.now }
    requires shallow { AreShallow (trees_of store.now goal.now) }
    requires forms { AllZip (IsForm store.now store.now) goal.now forms.now }
    ensures listed { IfOk result (λ l. IsListed most (trees_of store.now goal.now) (trees_of store.now l.formulas)) }
    ensures has { IfOk result (λ l. All (Has store.now) l.formulas) }
    ensures leads { IfOk result (λ l. StepsLeave store.now (as_items (trees_of store.now goal.now)) l.steps (as_items (trees_of store.now l.formulas))) }
    ensures fault { IfErr result (IsFault most store.now (trees_of store.now goal.now)) }
{
    store.is_lawful();
    let listed = trace_list(alloc, store, goal, forms)?;
    let count = size(alloc, store, listed.formulas.as_slice())?;
    if count > most {
        return Err(Fault::TooLarge(count as u64));
    }
    Ok(listed)
}

/// The canonical list of a goal of which these are the canonical forms, with the steps that lead to it.
fn trace_list(
    alloc: Global,
    store: &Store,
    goal: &[TermId],
    forms: &[TermId],
) -> Result<Listed, AllocError>
    requires formulas { All (HasSort Bool store.now) goal.now }
    requires shallow { AreShallow (trees_of store.now goal.now) }
    requires forms { AllZip (IsForm store.now store.now) goal.now forms.now }
    ensures tidied { IfOk result (λ l. trees_of store.now l.formulas ≡ tidied (trees_of store.now forms.now)) }
    ensures has { IfOk result (λ l. All (Has store.now) l.formulas) }
    ensures leads { IfOk result (λ l. StepsLeave store.now (as_items (trees_of store.now goal.now)) l.steps (as_items (trees_of store.now l.formulas))) }
{
    store.is_lawful();
    let items = Vec::from_slice(alloc, goal)?;
    let mut trace = Trace {
        items,
        steps: Items::new(alloc),
    };
    rewrite_all(store, &mut trace, goal, forms)?;
    let places = chosen(alloc, store, &mut trace, goal.len(), forms)?;
    let listed = keep(alloc, store, trace, places.as_slice())?;
    Ok(listed)
}

/// The places of the canonical list's formulas among the items of a trace, where the canonical forms are the items behind so many
/// others.
fn chosen(
    alloc: Global,
    store: &Store,
    trace: &mut Trace,
    behind: usize,
    forms: &[TermId],
) -> Result<Vec<Place>, AllocError>
    requires has { All (HasSort Bool store.now) forms.now }
    requires items { (before : List ℕ) × (trace.old.items.items ≡ before ++ forms.now) × (length before ≡ behind) }
    ensures leads { IfOk result (λ places. LeadsOn store.now trace.old trace.new) }
    ensures chosen { IfOk result (λ places. AreChosen store.now trace.new.items.items forms.now places.items) }
{
    match first_false(store, forms) {
        Some(at) => {
            let places = false_place(alloc, store, trace, behind, forms, at)?;
            Ok(places)
        }
        None => {
            let places = part_places(alloc, store, trace, behind, forms)?;
            Ok(places)
        }
    }
}

/// The places of the parts, each once, where no formula is `false`.
fn part_places(
    alloc: Global,
    store: &Store,
    trace: &mut Trace,
    behind: usize,
    forms: &[TermId],
) -> Result<Vec<Place>, AllocError>
    requires has { All (HasSort Bool store.now) forms.now }
    requires items { (before : List ℕ) × (trace.old.items.items ≡ before ++ forms.now) × (length before ≡ behind) }
    requires plain { is_in False (trees_of store.now forms.now) ≡ false }
    ensures leads { IfOk result (λ places. LeadsOn store.now trace.old trace.new) }
    ensures chosen { IfOk result (λ places. AreChosen store.now trace.new.items.items forms.now places.items) }
{
    store.is_distinct();
    let places = place_all(alloc, store, trace, behind, forms)?;
    let kept = once(alloc, places.as_slice())?;
    Ok(kept)
}

/// Keeps the items at the places alone.
fn keep(alloc: Global, _store: &Store, trace: Trace, places: &[Place]) -> Result<Listed, AllocError>
    requires placed { ArePlaced trace.items.items places.now }
    ensures formulas { IfOk result (λ l. l.formulas ≡ map (λ p. p.id) places.now) }
    ensures leads { IfOk result (λ l. (items : List Item) → StepsLeave _store.now items trace.steps (shown _store.now trace) → StepsLeave _store.now items l.steps (as_items (trees_of _store.now l.formulas))) }
{
    let numbers = numbers_of(alloc, places)?;
    let ids = ids_of(alloc, places)?;
    let Trace {
        items: _,
        mut steps,
    } = trace;
    steps.push(Step::Keep { items: numbers })?;
    Ok(Listed {
        formulas: TermIds::from_vec(ids),
        steps,
    })
}

/// The numbers of places.
fn numbers_of(alloc: Global, places: &[Place]) -> Result<Items<u32>, AllocError>
    ensures { IfOk result (λ numbers. numbers ≡ map (λ p. p.number) places.now) }
{
    let mut numbers = Items::new(alloc);
    for place in places {
        numbers.push(place.number)?;
    }
    Ok(numbers)
}

/// The formulas of places.
fn ids_of(alloc: Global, places: &[Place]) -> Result<Vec<TermId>, AllocError>
    ensures { IfOk result (λ ids. ids.items ≡ map (λ p. p.id) places.now) }
{
    let mut ids = Vec::new(alloc);
    for place in places {
        ids.push(place.id)?;
    }
    Ok(ids)
}

/// The place of a formula that is `false`.
fn false_place(
    alloc: Global,
    _store: &Store,
    _trace: &Trace,
    behind: usize,
    forms: &[TermId],
    at: usize,
) -> Result<Vec<Place>, AllocError>
    requires items { (before : List ℕ) × (_trace.now.items.items ≡ before ++ forms.now) × (length before ≡ behind) }
    requires found { (i : ℕ) × (slice_get forms.now at ≡ Some i) × (tree_at _store.now i ≡ False) × (is_in False (trees_of _store.now forms.now) ≡ true) }
    requires within { at < length forms.now }
    requires has { All (Has _store.now) forms.now }
    ensures { IfOk result (λ places. AreChosen _store.now _trace.now.items.items forms.now places.items) }
{
    let number = number_at(behind, at)?;
    let mut places = Vec::new(alloc);
    places.push(Place {
        number,
        id: forms[at],
    })?;
    Ok(places)
}

/// How many distinct subterms terms have. A store has fewer than 2^32.
fn size(alloc: Global, store: &Store, list: &[TermId]) -> Result<usize, AllocError>
    requires has { All (Has store.now) list.now }
    ensures { IfOk result (HasSubterms (trees_of store.now list.now)) }
{
    match count_subterms(alloc, store, list, store.size())? {
        Some(count) => Ok(count),
        None => Err(AllocError),
    }
}
