//! The names that are split, each with its bits.
ghost use Rattle.std.specs.Prelude.{◌≡◌, ◌<ℤ◌, ◌≤◌, ◌^◌, map, pos, ℕ, [], List, length, All, IfOk, IfSome, OnOk, if◌then◌else◌};
ghost use Rattle.std.specs.HashMap.{get};
ghost use Rattle.qterm.specs.Name.{IsNameText};
ghost use Rattle.qterm.specs.Tree.{Tree, Var};
ghost use Rattle.qterm.specs.Store.{Has, HasSort, tree_at, trees_of};
ghost use Rattle.qterm.specs.declared.name.Sort.TheVariants.{Int};
ghost use Rattle.qterm.specs.declared.name.Name.{Name};
ghost use Rattle.qwalk.specs.Walk.{same_id};
ghost use Rattle.qsubst.specs.Names.{names_of};
ghost use Rattle.name_bounds.specs.Missing.{is_int};
ghost use Rattle.name_bounds.specs.Ranges.{AreRanges, range_of};
ghost use Rattle.bit_lists.specs.Splits.{split_by, HasDigits};
ghost use Rattle.bit_lists.specs.Steps.{paired, AreNewBits, AddsSplit, Step, Splits};

use crate::sums::power;
use name_bounds::{Range, range_at};
use qsubst::Texts;
use qterm::{Name, Sort, Store, Term, TermId};
use sqlite_items::Items;
use std::alloc::{AllocError, Global};
use std::collections::HashMap;

/// A name that is replaced: it stands for the sum of its bits, the first times 1, the next times 2, and so on.
#[derive(Debug, Drop)]
pub struct Split {
    /// The name that is replaced.
    pub name: Name,
    /// Its upper bound.
    pub up: i128,
    /// The names of its bits, each of which is 0 or 1.
    pub bits: Items<Name>,
}

/// The splits of names, in order: of each that is Int and has an upper bound that isn't 1.
pub(crate) fn split_all(
    alloc: Global,
    store: &Store,
    names: &[TermId],
    table: &HashMap<TermId, Range>,
    taken: &mut Texts,
) -> Result<Vec<Split>, AllocError>
    requires has { All (Has store.now) names.now }
    ensures splits { IfOk result (λ v. (fs : List Tree) → trees_of store.now names.now ≡ map Var (names_of fs) → AreRanges store.now fs (get same_id table.now) → Splits taken.old fs v.items) }
{
    let mut splits = Vec::new(alloc);
    for name in names {
        split_name(alloc, store, *name, table, taken, &mut splits)?;
    }
    Ok(splits)
}

/// Splits a name, where it is Int and has an upper bound that isn't 1.
fn split_name(
    alloc: Global,
    store: &Store,
    id: TermId,
    table: &HashMap<TermId, Range>,
    taken: &mut Texts,
    splits: &mut Vec<Split>,
) -> Result<(), AllocError>
    requires has { Has store.now id }
    ensures { OnOk result ((x : Name) → tree_at store.now id ≡ Var x → Step (if is_int x.sort then split_by x (range_of (get same_id table.now id)).up else []) taken.old taken.new splits.old.items splits.new.items) }
{
    match upper(store, table, id) {
        Some(up) => {
            add_split(alloc, store, id, up, taken, splits)?;
            Ok(())
        }
        None => Ok(()),
    }
}

/// The upper bound of a name, where the name is Int and the bound isn't 1.
fn upper(store: &Store, table: &HashMap<TermId, Range>, id: TermId) -> Option<i128>
    requires has { Has store.now id }
    ensures upper { (x : Name) → tree_at store.now id ≡ Var x → (if is_int x.sort then split_by x (range_of (get same_id table.now id)).up else []) ≡ paired x result }
    ensures int { IfSome result (λ _. HasSort Int store.now id) }
{
    match store.sort(id) {
        Sort::Bool => None,
        Sort::Int => match range_at(table, id).up {
            Some(up) => if up == 1 { None } else { Some(up) },
            None => None,
        },
    }
}

/// Splits an Int name with an upper bound.
fn add_split(
    alloc: Global,
    store: &Store,
    id: TermId,
    up: i128,
    taken: &mut Texts,
    splits: &mut Vec<Split>,
) -> Result<(), AllocError>
    requires int { HasSort Int store.now id }
    ensures { OnOk result ((x : Name) → tree_at store.now id ≡ Var x → AddsSplit x up taken.old taken.new splits.old.items splits.new.items) }
{
    match store.view(id) {
        Term::Var(name) => {
            let bits = new_bits(alloc, taken, name.text(), digits(up))?;
            let name = name.clone()?;
            splits.push(Split { name, up, bits })?;
            Ok(())
        }
        _ => Ok(()),
    }
}

/// How many binary digits a number has: none for a negative one.
fn digits(up: i128) -> usize
    ensures digits { HasDigits up result }
    ensures small { result ≤ 127 }
{
    for count in 0..127 {
        if up < power(count) {
            return count;
        }
    }
    127
}

/// So many fresh Int names of a base.
fn new_bits(
    alloc: Global,
    taken: &mut Texts,
    base: &[u8],
    count: usize,
) -> Result<Items<Name>, AllocError>
    requires allowed { IsNameText base.now }
    ensures new { IfOk result (λ bits. AreNewBits base.now taken.old taken.new bits) }
    ensures count { IfOk result (λ bits. length bits ≡ count) }
{
    let mut bits = Items::new(alloc);
    for _ in 0..count {
        bits.push(taken.fresh(alloc, base, Sort::Int)?)?;
    }
    Ok(bits)
}
