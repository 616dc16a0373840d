//! Names are shifted so that their lower bounds become 0.
ghost use Rattle.std.specs.Prelude.{◌≡◌, ◌++◌, ◌∷◌, [], ℕ, List, All, IfOk, IfSome, OnOk, if◌then◌else◌};
ghost use Rattle.std.specs.HashMap.{get};
ghost use Rattle.qterm.specs.Tree.{Var, Num, Sum, none, more};
ghost use Rattle.qterm.specs.Store.{Has, HasSort, Shows, Extends, tree_at, trees_of};
ghost use Rattle.qterm.specs.declared.name.Sort.TheVariants.{Bool, Int};
ghost use Rattle.qterm.specs.declared.name.Name.{Name};
ghost use Rattle.qwalk.specs.Walk.{same_id};
ghost use Rattle.qsubst.specs.Substitution.{replaced_each, AreImages};
ghost use Rattle.name_bounds.specs.Missing.{is_int};
ghost use Rattle.shift_lists.specs.Shifts.{shift_by, images_of, AreShifts};
ghost use Rattle.shift_lists.specs.Steps.{low_at, paired, AddsShift, Step, Shifts};

use crate::taking::texts_in;
use name_bounds::{Range, range_at, ranges};
use qsubst::{Images, Texts, names_of, substitute};
use qterm::{Name, Sort, Store, Term, TermId, TermIds};
use std::alloc::{AllocError, Global};
use std::collections::HashMap;

/// A name that is replaced: it stands for the fresh name plus the number.
#[derive(Debug, Drop)]
pub struct Shift {
    /// The name that is replaced.
    pub name: Name,
    /// The name in its place.
    pub fresh: Name,
    /// The number that is added.
    pub by: i128,
}

/// Formulas with their names shifted, and the shifts in name order.
#[derive(Debug, Drop)]
pub struct Shifted {
    /// The formulas.
    pub formulas: Vec<TermId>,
    /// The shifts.
    pub shifts: Vec<Shift>,
}

/// The formulas of a list, in which each Int name whose lower bound isn't 0 is replaced by a fresh name plus that bound. The fresh names
/// differ from those of the goal.
pub fn shift_names(
    alloc: Global,
    store: &mut Store,
    goal: &[TermId],
    list: &[TermId],
) -> Result<Shifted, AllocError>
    requires goal { All (HasSort Bool store.old) goal.now }
    requires formulas { All (HasSort Bool store.old) list.now }
    ensures shifts { IfOk result (λ s. AreShifts (trees_of store.old goal.now) (trees_of store.old list.now) s.shifts.items) }
    ensures replaced { IfOk result (λ s. trees_of store.new s.formulas.items ≡ replaced_each (images_of s.shifts.items) (trees_of store.old list.now)) }
    ensures formulas { IfOk result (λ s. All (HasSort Bool store.new) s.formulas.items) }
    ensures extends { Extends store.old store.new }
{
    let mut taken = texts_in(alloc, store, goal)?;
    let mut shifts = Vec::new(alloc);
    let formulas = shift_all(alloc, store, list, &mut taken, &mut shifts)?;
    Ok(Shifted { formulas, shifts })
}

/// The formulas with the names shifted.
fn shift_all(
    alloc: Global,
    store: &mut Store,
    list: &[TermId],
    taken: &mut Texts,
    shifts: &mut Vec<Shift>,
) -> Result<Vec<TermId>, AllocError>
    requires formulas { All (HasSort Bool store.old) list.now }
    requires none { shifts.old.items ≡ [] }
    ensures shifts { OnOk result (Shifts taken.old (trees_of store.old list.now) shifts.new.items) }
    ensures replaced { IfOk result (λ v. trees_of store.new v.items ≡ replaced_each (images_of shifts.new.items) (trees_of store.old list.now)) }
    ensures formulas { IfOk result (λ v. All (HasSort Bool store.new) v.items) }
    ensures extends { Extends store.old store.new }
{
    let names = names_of(alloc, store, list)?;
    let table = ranges(alloc, store, list)?;
    let mut images = Images::new(alloc);
    for name in names.as_slice() {
        shift_name(alloc, store, *name, &table, taken, &mut images, shifts)?;
    }
    let replaced = substitute(alloc, store, &images, list)?;
    Ok(replaced)
}

/// Shifts a name, where it is Int and has a lower bound that isn't 0.
fn shift_name(
    alloc: Global,
    store: &mut Store,
    id: TermId,
    table: &HashMap<TermId, Range>,
    taken: &mut Texts,
    images: &mut Images,
    shifts: &mut Vec<Shift>,
) -> Result<(), AllocError>
    requires has { Has store.old id }
    requires images { AreImages store.old images.old }
    ensures step { OnOk result ((x : Name) → tree_at store.old id ≡ Var x → Step store.new (if is_int x.sort then shift_by x (low_at (get same_id table.now) id) else []) taken.old taken.new images.old images.new shifts.old.items shifts.new.items) }
    ensures images { OnOk result (AreImages store.new images.new) }
    ensures extends { Extends store.old store.new }
{
    match lower(store, table, id) {
        Some(low) => {
            add_shift(alloc, store, id, &low, taken, images, shifts)?;
            Ok(())
        }
        None => Ok(()),
    }
}

/// The lower bound of a name, where the name is Int and the bound isn't 0.
fn lower(store: &Store, table: &HashMap<TermId, Range>, id: TermId) -> Option<i128>
    requires has { Has store.now id }
    ensures lower { (x : Name) → tree_at store.now id ≡ Var x → (if is_int x.sort then shift_by x (low_at (get same_id table.now) id) else []) ≡ paired x result }
    ensures int { IfSome result (λ _. HasSort Int store.now id) }
{
    match store.sort(id) {
        Sort::Bool => None,
        Sort::Int => match range_at(table, id).low {
            Some(low) => if low == 0 { None } else { Some(low) },
            None => None,
        },
    }
}

/// Shifts an Int name by a number.
fn add_shift(
    alloc: Global,
    store: &mut Store,
    id: TermId,
    low: &i128,
    taken: &mut Texts,
    images: &mut Images,
    shifts: &mut Vec<Shift>,
) -> Result<(), AllocError>
    requires int { HasSort Int store.old id }
    requires images { AreImages store.old images.old }
    ensures adds { OnOk result ((x : Name) → tree_at store.old id ≡ Var x → AddsShift store.new x low.now taken.old taken.new images.old images.new shifts.old.items shifts.new.items) }
    ensures images { OnOk result (AreImages store.new images.new) }
    ensures extends { Extends store.old store.new }
{
    let by = *low;
    match store.view(id) {
        Term::Var(found) => {
            let name = found.clone()?;
            let key = found.clone()?;
            let fresh = taken.fresh(alloc, found.text(), Sort::Int)?;
            let term = plus(alloc, store, &fresh, low)?;
            images.put(key, term)?;
            shifts.push(Shift { name, fresh, by })?;
            Ok(())
        }
        _ => Ok(()),
    }
}

/// An Int name plus a number.
fn plus(alloc: Global, store: &mut Store, name: &Name, by: &i128) -> Result<TermId, AllocError>
    requires int { name.now.sort ≡ Int }
    ensures shows { IfOk result (λ id. Shows store.new id (Sum (more (Var name.now) (more (Num by.now) none)))) }
    ensures extends { Extends store.old store.new }
{
    let number = *by;
    let var = store.intern(Term::Var(name.clone()?))?;
    let constant = store.intern(Term::Num(number))?;
    let mut summands = Vec::with_capacity(alloc, 2)?;
    summands.push(var)?;
    summands.push(constant)?;
    let sum = store.intern(Term::Sum(TermIds::from_vec(summands)))?;
    Ok(sum)
}
