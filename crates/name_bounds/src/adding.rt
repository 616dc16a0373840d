//! Formulas with the bounds of names that are missing behind them.
ghost use Rattle.std.specs.Prelude.{◌≡◌, ◌++◌, [], All, IfOk, OnOk, true, if◌then◌else◌};
ghost use Rattle.std.specs.HashMap.{get};
ghost use Rattle.qterm.specs.Tree.{Var};
ghost use Rattle.qterm.specs.Store.{Has, HasSort, Shows, Extends, tree_at, trees_of};
ghost use Rattle.qterm.specs.declared.name.Sort.TheVariants.{Bool, Int};
ghost use Rattle.qterm.specs.declared.name.Name.{Name};
ghost use Rattle.qwalk.specs.Walk.{same_id};
ghost use Rattle.qlin.specs.Number.{in_range};
ghost use Rattle.name_bounds.specs.Ranges.{range_of};
ghost use Rattle.name_bounds.specs.Missing.{is_int, low_bound, up_bound, if_none, missing_of, bounded};

use crate::table::{Range, range_at, ranges};
use qsubst::names_of;
use qterm::{Sort, Store, Term, TermId};
use std::alloc::{AllocError, Global};
use std::collections::HashMap;

/// The formulas, and then in name order for each Int name the lower bound `lower` and the upper bound `upper`, where the formulas give it
/// none.
pub fn bounded(
    alloc: Global,
    store: &mut Store,
    list: &[TermId],
    lower: i128,
    upper: i128,
) -> Result<Vec<TermId>, AllocError>
    requires formulas { All (HasSort Bool store.old) list.now }
    requires lower { in_range lower ≡ true }
    ensures all { IfOk result (λ v. trees_of store.new v.items ≡ bounded lower upper (trees_of store.old list.now)) }
    ensures formulas { IfOk result (λ v. All (HasSort Bool store.new) v.items) }
    ensures extends { Extends store.old store.new }
{
    let names = names_of(alloc, store, list)?;
    let table = ranges(alloc, store, list)?;
    let mut all = Vec::from_slice(alloc, list)?;
    for name in names.as_slice() {
        push_missing(store, *name, &table, lower, upper, &mut all)?;
    }
    Ok(all)
}

/// Puts the bounds of a name that are missing at the end.
fn push_missing(
    store: &mut Store,
    name: TermId,
    table: &HashMap<TermId, Range>,
    lower: i128,
    upper: i128,
    all: &mut Vec<TermId>,
) -> Result<(), AllocError>
    requires has { Has store.old name }
    requires formulas { All (HasSort Bool store.old) all.old.items }
    requires lower { in_range lower ≡ true }
    ensures all { OnOk result ((x : Name) → tree_at store.old name ≡ Var x → trees_of store.new all.new.items ≡ trees_of store.old all.old.items ++ (if is_int x.sort then missing_of lower upper x (range_of (get same_id table.now name)) else [])) }
    ensures formulas { OnOk result (All (HasSort Bool store.new) all.new.items) }
    ensures extends { Extends store.old store.new }
{
    match store.sort(name) {
        Sort::Bool => Ok(()),
        Sort::Int => {
            let range = range_at(table, name);
            push_lower(store, name, range.low, lower, all)?;
            push_upper(store, name, range.up, upper, all)?;
            Ok(())
        }
    }
}

/// Puts the lower bound of a name at the end, where it has none.
fn push_lower(
    store: &mut Store,
    name: TermId,
    known: Option<i128>,
    lower: i128,
    all: &mut Vec<TermId>,
) -> Result<(), AllocError>
    requires name { HasSort Int store.old name }
    requires formulas { All (HasSort Bool store.old) all.old.items }
    requires lower { in_range lower ≡ true }
    ensures all { OnOk result ((x : Name) → tree_at store.old name ≡ Var x → trees_of store.new all.new.items ≡ trees_of store.old all.old.items ++ if_none known (low_bound x lower)) }
    ensures formulas { OnOk result (All (HasSort Bool store.new) all.new.items) }
    ensures extends { Extends store.old store.new }
{
    match known {
        Some(_) => Ok(()),
        None => {
            let bound = lower_bound(store, name, lower)?;
            all.push(bound)?;
            Ok(())
        }
    }
}

/// Puts the upper bound of a name at the end, where it has none.
fn push_upper(
    store: &mut Store,
    name: TermId,
    known: Option<i128>,
    upper: i128,
    all: &mut Vec<TermId>,
) -> Result<(), AllocError>
    requires name { HasSort Int store.old name }
    requires formulas { All (HasSort Bool store.old) all.old.items }
    ensures all { OnOk result ((x : Name) → tree_at store.old name ≡ Var x → trees_of store.new all.new.items ≡ trees_of store.old all.old.items ++ if_none known (up_bound x upper)) }
    ensures formulas { OnOk result (All (HasSort Bool store.new) all.new.items) }
    ensures extends { Extends store.old store.new }
{
    match known {
        Some(_) => Ok(()),
        None => {
            let bound = upper_bound(store, name, upper)?;
            all.push(bound)?;
            Ok(())
        }
    }
}

/// The lower bound of a name, as the formula that it is.
fn lower_bound(store: &mut Store, name: TermId, low: i128) -> Result<TermId, AllocError>
    requires name { HasSort Int store.old name }
    requires range { in_range low ≡ true }
    ensures shows { IfOk result (λ id. (x : Name) → tree_at store.old name ≡ Var x → Shows store.new id (low_bound x low)) }
    ensures sort { IfOk result (HasSort Bool store.new) }
    ensures extends { Extends store.old store.new }
{
    let minus = store.intern(Term::Scale(-1, name))?;
    let number = store.intern(Term::Num(-low))?;
    let bound = store.intern(Term::Le(minus, number))?;
    Ok(bound)
}

/// The upper bound of a name.
fn upper_bound(store: &mut Store, name: TermId, up: i128) -> Result<TermId, AllocError>
    requires name { HasSort Int store.old name }
    ensures shows { IfOk result (λ id. (x : Name) → tree_at store.old name ≡ Var x → Shows store.new id (up_bound x up)) }
    ensures sort { IfOk result (HasSort Bool store.new) }
    ensures extends { Extends store.old store.new }
{
    let number = store.intern(Term::Num(up))?;
    let bound = store.intern(Term::Le(name, number))?;
    Ok(bound)
}
