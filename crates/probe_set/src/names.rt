//! Measures over the distinct subterms of formulas.
ghost use Rattle.std.specs.Prelude.{◌≡◌, List, All, IfOk, MatchOption, length, map};
ghost use Rattle.std.specs.List.{list_all, filter};
ghost use Rattle.std.specs.HashMap.{get};
ghost use Rattle.qterm.specs.Tree.{Tree, sort_of};
ghost use Rattle.qterm.specs.Store.{Has, tree_at, trees_of};
ghost use Rattle.qwalk.specs.Walk.{same_id};
ghost use Rattle.probe_set.specs.Measures as measure;
ghost use Rattle.probe_set.specs.Ranges.{AreRanges};

use crate::ranges::{Range, range_at, ranges};
use qterm::{Sort, Store, Term, TermId};
use qwalk::subterms;
use std::alloc::{AllocError, Global};
use std::collections::HashMap;

/// The number of distinct subterms.
pub(crate) fn num_exprs(
    alloc: Global,
    store: &Store,
    formulas: &[TermId],
) -> Result<usize, AllocError>
    requires has { All (Has store.now) formulas.now }
    ensures { IfOk result (λ n. n ≡ measure.num_exprs (trees_of store.now formulas.now)) }
{
    store.is_distinct();
    let found = subterms(alloc, store, formulas)?;
    Ok(found.len())
}

/// The number of distinct names.
pub(crate) fn num_consts(
    alloc: Global,
    store: &Store,
    formulas: &[TermId],
) -> Result<usize, AllocError>
    requires has { All (Has store.now) formulas.now }
    ensures { IfOk result (λ n. n ≡ measure.num_consts (trees_of store.now formulas.now)) }
{
    store.is_distinct();
    let found = subterms(alloc, store, formulas)?;
    let n = count_names(store, found.ids());
    Ok(n)
}

/// How many of the terms are names.
fn count_names(store: &Store, ids: &[TermId]) -> usize
    requires has { All (Has store.now) ids.now }
    ensures { result ≡ length (filter measure.is_name (trees_of store.now ids.now)) }
{
    let mut count = 0;
    for id in ids {
        if is_name(store, *id) {
            count += 1;
        }
    }
    count
}

/// Whether a term is a name.
pub(crate) fn is_name(store: &Store, id: TermId) -> bool
    requires has { Has store.now id }
    ensures { result ≡ measure.is_name (tree_at store.now id) }
{
    matches!(store.view(id), Term::Var(_))
}

/// Whether no Int term occurs.
pub(crate) fn is_propositional(
    alloc: Global,
    store: &Store,
    formulas: &[TermId],
) -> Result<bool, AllocError>
    requires has { All (Has store.now) formulas.now }
    ensures { IfOk result (λ b. b ≡ measure.is_propositional (trees_of store.now formulas.now)) }
{
    let found = subterms(alloc, store, formulas)?;
    let b = are_bool(store, found.ids());
    Ok(b)
}

/// Whether all of the terms are formulas.
fn are_bool(store: &Store, ids: &[TermId]) -> bool
    requires has { All (Has store.now) ids.now }
    ensures { result ≡ list_all (λ t. measure.is_bool (sort_of t)) (trees_of store.now ids.now) }
{
    for id in ids {
        if !is_bool(store.sort(*id)) {
            return false;
        }
    }
    true
}

/// Whether it is the sort of formulas.
fn is_bool(sort: Sort) -> bool
    ensures { result ≡ measure.is_bool sort }
{
    match sort {
        Sort::Bool => true,
        Sort::Int => false,
    }
}

/// Whether each Int name has a low and an up.
pub(crate) fn is_bounded(
    alloc: Global,
    store: &Store,
    formulas: &[TermId],
) -> Result<bool, AllocError>
    requires has { All (Has store.now) formulas.now }
    ensures { IfOk result (λ b. b ≡ measure.is_bounded (trees_of store.now formulas.now)) }
{
    let found = subterms(alloc, store, formulas)?;
    let table = ranges(alloc, store, formulas)?;
    let b = are_bounded(store, &table, found.ids());
    Ok(b)
}

/// Whether each of the terms that is an Int name has both bounds.
fn are_bounded(store: &Store, table: &HashMap<TermId, Range>, ids: &[TermId]) -> bool
    requires has { All (Has store.now) ids.now }
    ensures { (fs : List Tree) → AreRanges store.now fs (get same_id table.now) → result ≡ list_all (measure.each_int measure.are_there fs) (trees_of store.now ids.now) }
{
    for id in ids {
        if !is_bounded_at(store, table, *id) {
            return false;
        }
    }
    true
}

/// Whether a term has both bounds, if it is an Int name.
fn is_bounded_at(store: &Store, table: &HashMap<TermId, Range>, id: TermId) -> bool
    requires has { Has store.now id }
    ensures { (fs : List Tree) → AreRanges store.now fs (get same_id table.now) → result ≡ measure.each_int measure.are_there fs (tree_at store.now id) }
{
    match store.view(id) {
        Term::Var(name) => is_bool(name.sort()) || are_there(range_at(table, id)),
        _ => true,
    }
}

/// Whether both bounds are there.
fn are_there(range: Range) -> bool
    ensures { result ≡ measure.are_there range.low range.up }
{
    range.low.is_some() && range.up.is_some()
}

/// Whether each Int name has a low of at least 0 and an up of at most 1.
pub(crate) fn is_01(alloc: Global, store: &Store, formulas: &[TermId]) -> Result<bool, AllocError>
    requires has { All (Has store.now) formulas.now }
    ensures { IfOk result (λ b. b ≡ measure.is_01 (trees_of store.now formulas.now)) }
{
    let found = subterms(alloc, store, formulas)?;
    let table = ranges(alloc, store, formulas)?;
    let b = are_all_01(store, &table, found.ids());
    Ok(b)
}

/// Whether each of the terms that is an Int name lies between 0 and 1.
fn are_all_01(store: &Store, table: &HashMap<TermId, Range>, ids: &[TermId]) -> bool
    requires has { All (Has store.now) ids.now }
    ensures { (fs : List Tree) → AreRanges store.now fs (get same_id table.now) → result ≡ list_all (measure.each_int measure.are_01 fs) (trees_of store.now ids.now) }
{
    for id in ids {
        if !is_01_at(store, table, *id) {
            return false;
        }
    }
    true
}

/// Whether a term lies between 0 and 1, if it is an Int name.
fn is_01_at(store: &Store, table: &HashMap<TermId, Range>, id: TermId) -> bool
    requires has { Has store.now id }
    ensures { (fs : List Tree) → AreRanges store.now fs (get same_id table.now) → result ≡ measure.each_int measure.are_01 fs (tree_at store.now id) }
{
    match store.view(id) {
        Term::Var(name) => is_bool(name.sort()) || are_01(range_at(table, id)),
        _ => true,
    }
}

/// Whether the low is at least 0 and the up at most 1.
fn are_01(range: Range) -> bool
    ensures { result ≡ measure.are_01 range.low range.up }
{
    is_from_0(range.low) && is_to_1(range.up)
}

/// Whether a low is at least 0.
fn is_from_0(low: Option<i128>) -> bool
    ensures { result ≡ measure.is_from_0 low }
{
    match low {
        Some(low) => low >= 0,
        None => false,
    }
}

/// Whether an up is at most 1.
fn is_to_1(up: Option<i128>) -> bool
    ensures { result ≡ measure.is_to_1 up }
{
    match up {
        Some(up) => up <= 1,
        None => false,
    }
}

/// The greatest width of the range of an Int name.
pub(crate) fn max_bits(alloc: Global, store: &Store, formulas: &[TermId]) -> Result<u32, AllocError>
    requires has { All (Has store.now) formulas.now }
    ensures { IfOk result (λ n. n ≡ measure.max_bits (trees_of store.now formulas.now)) }
{
    let found = subterms(alloc, store, formulas)?;
    let table = ranges(alloc, store, formulas)?;
    let n = greatest_width(store, &table, found.ids());
    Ok(n)
}

/// The greatest width of the ranges of those of the terms that are Int names.
fn greatest_width(store: &Store, table: &HashMap<TermId, Range>, ids: &[TermId]) -> u32
    requires has { All (Has store.now) ids.now }
    ensures { (fs : List Tree) → AreRanges store.now fs (get same_id table.now) → result ≡ measure.greatest (map (measure.bits_at fs) (trees_of store.now ids.now)) }
{
    let mut most = 0u32;
    for id in ids {
        most = most.max(width_at(store, table, *id));
    }
    most
}

/// The width of the range of a term, if it is an Int name, and else 0.
fn width_at(store: &Store, table: &HashMap<TermId, Range>, id: TermId) -> u32
    requires has { Has store.now id }
    ensures { (fs : List Tree) → AreRanges store.now fs (get same_id table.now) → result ≡ measure.bits_at fs (tree_at store.now id) }
{
    match store.view(id) {
        Term::Var(name) => if is_bool(name.sort()) {
            0
        } else {
            range_width(range_at(table, id))
        },
        _ => 0,
    }
}

/// The binary width of a range, which is 128 where a bound is missing.
fn range_width(range: Range) -> u32
    ensures { result ≡ measure.range_width range.low range.up }
{
    match (range.low, range.up) {
        (Some(low), Some(up)) => width(up.checked_sub(low)),
        _ => 128,
    }
}

/// The binary width of a difference: 0 for a negative one, 128 where it is outside 128 bits.
fn width(difference: Option<i128>) -> u32
    ensures { MatchOption difference (result ≡ 128) (λ z. result ≡ measure.width z) }
{
    match difference {
        Some(difference) => if difference < 0 {
            0
        } else {
            128 - (difference as u128).leading_zeros()
        },
        None => 128,
    }
}
