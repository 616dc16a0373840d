//! Numbers, multiples, and the atoms over canonical Int terms.
ghost use Rattle.std.specs.Prelude.{IfOk, IfSome};
ghost use Rattle.qterm.specs.Store.{HasSort, Extends, tree_at};
ghost use Rattle.qterm.specs.declared.name.Sort.TheVariants.{Int};
ghost use Rattle.qlin.specs.Form.{form, times, if_in_range};
ghost use Rattle.qlin.specs.Linear.{num_of, scale_of};
ghost use Rattle.qlin.specs.Atom.{difference, le_of, eq_of};
ghost use Rattle.qnegation.specs.Answer.{IsOwn, Answers};
ghost use Rattle.qcanon.specs.Sums.{GivesForm, IsNarrow};

use crate::form::{narrow, read, write};
use qlin::{Lin, LinError, in_range};
use qterm::{Store, Term, TermId};
use std::alloc::{AllocError, Global};

/// The term of a number, where it is in range.
pub(crate) fn number(store: &mut Store, value: i128) -> Result<Option<TermId>, AllocError>
    ensures answers { IfOk result (Answers store.new (num_of value)) }
    ensures extends { Extends store.old store.new }
{
    if in_range(value) {
        let id = store.intern(Term::Num(value))?;
        Ok(Some(id))
    } else {
        Ok(None)
    }
}

/// A number times a canonical term, where each number of the form is in range.
pub(crate) fn scale(
    alloc: Global,
    store: &mut Store,
    by: i128,
    id: TermId,
) -> Result<Option<TermId>, AllocError>
    requires int { HasSort Int store.old id }
    requires own { IsOwn store.old id }
    ensures answers { IfOk result (Answers store.new (scale_of by (tree_at store.old id))) }
    ensures extends { Extends store.old store.new }
{
    let form = scaled(alloc, store, by, id)?;
    write(alloc, store, form)
}

/// The form of a number times a canonical term, where each number of it is in range.
fn scaled(alloc: Global, store: &Store, by: i128, id: TermId) -> Result<Option<Lin>, AllocError>
    requires int { HasSort Int store.now id }
    requires own { IsOwn store.now id }
    ensures { IfOk result (GivesForm store.now (if_in_range (times by (form (tree_at store.now id))))) }
{
    let form = read(alloc, store, id)?;
    match form.scale(alloc, by) {
        Ok(form) => Ok(narrow(form)),
        Err(LinError::Wide) => Ok(None),
        Err(LinError::Memory(error)) => Err(error),
    }
}

/// That one canonical term is at most another, where each number of the difference is in range.
pub(crate) fn at_most(
    alloc: Global,
    store: &mut Store,
    left: TermId,
    right: TermId,
) -> Result<Option<TermId>, AllocError>
    requires left_int { HasSort Int store.old left }
    requires right_int { HasSort Int store.old right }
    requires left_own { IsOwn store.old left }
    requires right_own { IsOwn store.old right }
    ensures answers { IfOk result (Answers store.new (le_of (tree_at store.old left) (tree_at store.old right))) }
    ensures extends { Extends store.old store.new }
{
    match difference(alloc, store, left, right)? {
        Some(form) => {
            let id = form.at_most_zero(alloc, store)?;
            Ok(Some(id))
        }
        None => Ok(None),
    }
}

/// That one canonical term equals another, where each number of the difference is in range.
pub(crate) fn equal(
    alloc: Global,
    store: &mut Store,
    left: TermId,
    right: TermId,
) -> Result<Option<TermId>, AllocError>
    requires left_int { HasSort Int store.old left }
    requires right_int { HasSort Int store.old right }
    requires left_own { IsOwn store.old left }
    requires right_own { IsOwn store.old right }
    ensures answers { IfOk result (Answers store.new (eq_of (tree_at store.old left) (tree_at store.old right))) }
    ensures extends { Extends store.old store.new }
{
    match difference(alloc, store, left, right)? {
        Some(form) => {
            let id = form.equals_zero(alloc, store)?;
            Ok(Some(id))
        }
        None => Ok(None),
    }
}

/// The form of one canonical term minus that of another, where each number of it is in range.
fn difference(
    alloc: Global,
    store: &Store,
    left: TermId,
    right: TermId,
) -> Result<Option<Lin>, AllocError>
    requires left_int { HasSort Int store.now left }
    requires right_int { HasSort Int store.now right }
    requires left_own { IsOwn store.now left }
    requires right_own { IsOwn store.now right }
    ensures gives { IfOk result (GivesForm store.now (difference (tree_at store.now left) (tree_at store.now right))) }
    ensures narrow { IfOk result (λ o. IfSome o IsNarrow) }
{
    let form = read(alloc, store, left)?;
    let other = read(alloc, store, right)?;
    let turned = other.turned(alloc)?;
    match form.add(alloc, store, &turned) {
        Ok(form) => Ok(narrow(form)),
        Err(LinError::Wide) => Ok(None),
        Err(LinError::Memory(error)) => Err(error),
    }
}
