//! The bounds of all names of formulas, found in one walk over the formulas.
ghost use Rattle.std.specs.Prelude.{◌≡◌, ◌<◌, ℕ, ℤ, pos, All, IfOk, OnOk, IfSome, Some, None, cond, nat_eq};
ghost use Rattle.std.specs.HashMap.{get};
ghost use Rattle.std.specs.Int.{int_min, int_max};
ghost use Rattle.qterm.specs.Store.{Has, tree_at, trees_of};
ghost use Rattle.qwalk.specs.Walk.{same_id};
ghost use Rattle.qsubst.specs.Vars.{is_var};
ghost use Rattle.qeval.specs.Bounds.{picked, number_in, negated};
ghost use Rattle.name_bounds.specs.Ranges.{range_of, tighter, IsBound, AreRanges, IsTighter, BoundsLeft};

use qterm::{Store, Term, TermId};
use std::alloc::{AllocError, Global};
use std::collections::HashMap;

/// The tightest bounds of a name.
#[derive(Clone, Copy)]
pub struct Range {
    pub low: Option<i128>,
    pub up: Option<i128>,
}

/// The bounds of one name that a formula is.
#[derive(Clone, Copy)]
pub(crate) struct Bound {
    pub(crate) id: TermId,
    pub(crate) low: Option<i128>,
    pub(crate) up: Option<i128>,
}

/// The ranges of all names that some formula bounds.
pub fn ranges(
    alloc: Global,
    store: &Store,
    formulas: &[TermId],
) -> Result<HashMap<TermId, Range>, AllocError>
    requires has { All (Has store.now) formulas.now }
    ensures { IfOk result (λ table. AreRanges store.now (trees_of store.now formulas.now) (get same_id table)) }
{
    store.is_distinct();
    let mut table = HashMap::new(alloc);
    for formula in formulas {
        note(&mut table, store, *formula)?;
    }
    Ok(table)
}

/// Takes the bounds that a formula is into the table.
fn note(
    table: &mut HashMap<TermId, Range>,
    store: &Store,
    formula: TermId,
) -> Result<(), AllocError>
    requires has { Has store.now formula }
    ensures { OnOk result (IsTighter store.now (tree_at store.now formula) (get same_id table.old) (get same_id table.new)) }
{
    store.is_distinct();
    match bound_in(store, formula) {
        Some(bound) => {
            let range = range_at(table, bound.id);
            put(table, bound.id, tightened(range, bound))?;
            Ok(())
        }
        None => Ok(()),
    }
}

/// Gives a name its range.
fn put(table: &mut HashMap<TermId, Range>, id: TermId, range: Range) -> Result<(), AllocError>
    ensures { OnOk result ((j : ℕ) → get same_id table.new j ≡ cond (nat_eq id j) (Some range) (get same_id table.old j)) }
{
    table.insert(id, range)?;
    Ok(())
}

/// The range of a name.
pub fn range_at(table: &HashMap<TermId, Range>, id: TermId) -> Range
    ensures { result ≡ range_of (get same_id table.now id) }
{
    match table.get(&id).copied() {
        Some(range) => range,
        None => Range {
            low: None,
            up: None,
        },
    }
}

/// The range with the bounds taken in.
fn tightened(range: Range, bound: Bound) -> Range
    ensures { result ≡ tighter range bound.low bound.up }
{
    Range {
        low: greater(range.low, bound.low),
        up: lesser(range.up, bound.up),
    }
}

/// The greater of the numbers that are there.
fn greater(a: Option<i128>, b: Option<i128>) -> Option<i128>
    ensures { result ≡ picked int_max a b }
{
    match (a, b) {
        (Some(y), Some(z)) => Some(y.max(z)),
        (Some(y), None) => Some(y),
        (None, o) => o,
    }
}

/// The lesser of the numbers that are there.
fn lesser(a: Option<i128>, b: Option<i128>) -> Option<i128>
    ensures { result ≡ picked int_min a b }
{
    match (a, b) {
        (Some(y), Some(z)) => Some(y.min(z)),
        (Some(y), None) => Some(y),
        (None, o) => o,
    }
}

/// The bound that a formula is, if it is one.
fn bound_in(store: &Store, formula: TermId) -> Option<Bound>
    requires has { Has store.now formula }
    ensures { IsBound store.now (tree_at store.now formula) result }
{
    match store.view(formula) {
        Term::Le(a, b) => bound_by(store, *a, number_in(store, *b), false),
        Term::Eq(a, b) => bound_by(store, *a, number_in(store, *b), true),
        _ => None,
    }
}

/// The bound that a term at most a number is, or equal to it, if it is one.
fn bound_by(store: &Store, term: TermId, number: Option<i128>, is_equal: bool) -> Option<Bound>
    requires has { Has store.now term }
    ensures { BoundsLeft store.now (tree_at store.now term) number is_equal result }
{
    match store.view(term) {
        Term::Var(_) => Some(Bound {
            id: term,
            low: if is_equal { number } else { None },
            up: number,
        }),
        Term::Scale(by, of) => {
            if *by == -1 && !is_equal && is_name(store, *of) {
                Some(Bound {
                    id: *of,
                    low: negated(number),
                    up: None,
                })
            } else {
                None
            }
        }
        _ => None,
    }
}

/// The number that a term is, as it stands.
fn number_in(store: &Store, id: TermId) -> Option<i128>
    requires has { Has store.now id }
    ensures { result ≡ number_in (tree_at store.now id) }
{
    match store.view(id) {
        Term::Num(number) => Some(*number),
        _ => None,
    }
}

/// The number with its sign changed, if that has 128 bits.
fn negated(number: Option<i128>) -> Option<i128>
    ensures { result ≡ negated number }
{
    match number {
        Some(number) => number.checked_neg(),
        None => None,
    }
}

/// Whether a term is a name.
fn is_name(store: &Store, id: TermId) -> bool
    requires has { Has store.now id }
    ensures { result ≡ is_var (tree_at store.now id) }
{
    matches!(store.view(id), Term::Var(_))
}
