//! Names that can't be split, and names below 0.
ghost use Rattle.std.specs.Prelude.{◌≡◌, ◌^◌, ◌≤◌, map, pos, List, All, IfOk};
ghost use Rattle.std.specs.HashMap.{get};
ghost use Rattle.qterm.specs.Tree.{Tree, Var};
ghost use Rattle.qterm.specs.Store.{Has, tree_at, trees_of};
ghost use Rattle.qterm.specs.declared.name.Name.{Name};
ghost use Rattle.qwalk.specs.Walk.{same_id};
ghost use Rattle.qeval.specs.Bounds.{low_of, up_of};
ghost use Rattle.qsubst.specs.Names.{names_of};
ghost use Rattle.name_bounds.specs.Ranges.{AreRanges};
ghost use Rattle.bit_lists.specs.Splits.{refused, refused_up, refusal, refusal_of, negative, negative_of, below_zero};

use crate::sums::power;
use name_bounds::{Range, range_at};
use qterm::{Name, Sort, Store, Term, TermId};
use std::alloc::AllocError;
use std::collections::HashMap;

/// Why a name can't be split.
#[derive(Debug, Drop)]
pub enum Refusal {
    /// The name has no lower bound 0, or no upper bound.
    NotBounded(Name),
    /// The upper bound of the name has too many binary digits.
    TooManyBits(Name),
}

/// Why the first of the names that can't be split can't be.
pub(crate) fn first_refusal(
    store: &Store,
    names: &[TermId],
    table: &HashMap<TermId, Range>,
    most: usize,
) -> Result<Option<Refusal>, AllocError>
    requires has { All (Has store.now) names.now }
    requires most { most ≤ 64 }
    ensures { IfOk result (λ o. (fs : List Tree) → trees_of store.now names.now ≡ map Var (names_of fs) → AreRanges store.now fs (get same_id table.now) → o ≡ refusal most fs) }
{
    for name in names {
        match refusal_of(store, *name, range_at(table, *name), most)? {
            Some(refusal) => return Ok(Some(refusal)),
            None => {}
        }
    }
    Ok(None)
}

/// Why a name can't be split, if it can't be: only Int names are.
fn refusal_of(
    store: &Store,
    id: TermId,
    range: Range,
    most: usize,
) -> Result<Option<Refusal>, AllocError>
    requires has { Has store.now id }
    requires most { most ≤ 64 }
    ensures { IfOk result (λ o. (x : Name) (fs : List Tree) → tree_at store.now id ≡ Var x → range ≡ record { low = low_of x fs; up = up_of x fs } → o ≡ refusal_of most fs x) }
{
    match store.view(id) {
        Term::Var(name) => match name.sort() {
            Sort::Bool => Ok(None),
            Sort::Int => refused(name, range, most),
        },
        _ => Ok(None),
    }
}

/// Why a name with these bounds can't be split, if it can't be.
fn refused(name: &Name, range: Range, most: usize) -> Result<Option<Refusal>, AllocError>
    requires most { most ≤ 64 }
    ensures { IfOk result (λ o. o ≡ refused most name.now range.low range.up) }
{
    match range.low {
        Some(low) => if low == 0 {
            refused_up(name, range.up, most)
        } else {
            Ok(Some(Refusal::NotBounded(name.clone()?)))
        },
        None => Ok(Some(Refusal::NotBounded(name.clone()?))),
    }
}

/// Why a name with this upper bound can't be split, if it can't be.
fn refused_up(name: &Name, up: Option<i128>, most: usize) -> Result<Option<Refusal>, AllocError>
    requires most { most ≤ 64 }
    ensures { IfOk result (λ o. o ≡ refused_up most name.now up) }
{
    match up {
        Some(up) => if up < power(most) {
            Ok(None)
        } else {
            Ok(Some(Refusal::TooManyBits(name.clone()?)))
        },
        None => Ok(Some(Refusal::NotBounded(name.clone()?))),
    }
}

/// The first of the names that has a negative upper bound.
pub(crate) fn first_negative(
    store: &Store,
    names: &[TermId],
    table: &HashMap<TermId, Range>,
) -> Result<Option<Name>, AllocError>
    requires has { All (Has store.now) names.now }
    ensures { IfOk result (λ o. (fs : List Tree) → trees_of store.now names.now ≡ map Var (names_of fs) → AreRanges store.now fs (get same_id table.now) → o ≡ negative fs) }
{
    for name in names {
        match negative_of(store, *name, range_at(table, *name))? {
            Some(name) => return Ok(Some(name)),
            None => {}
        }
    }
    Ok(None)
}

/// A name, if it is Int and has a negative upper bound.
fn negative_of(store: &Store, id: TermId, range: Range) -> Result<Option<Name>, AllocError>
    requires has { Has store.now id }
    ensures { IfOk result (λ o. (x : Name) (fs : List Tree) → tree_at store.now id ≡ Var x → range ≡ record { low = low_of x fs; up = up_of x fs } → o ≡ negative_of fs x) }
{
    match store.view(id) {
        Term::Var(name) => match name.sort() {
            Sort::Bool => Ok(None),
            Sort::Int => below_zero(name, range.up),
        },
        _ => Ok(None),
    }
}

/// A name, if this is a negative upper bound.
fn below_zero(name: &Name, up: Option<i128>) -> Result<Option<Name>, AllocError>
    ensures { IfOk result (λ o. o ≡ below_zero name.now up) }
{
    match up {
        Some(up) => if up < 0 {
            Ok(Some(name.clone()?))
        } else {
            Ok(None)
        },
        None => Ok(None),
    }
}
