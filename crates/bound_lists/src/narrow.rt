//! Formulas with few names.
ghost use Rattle.std.specs.Prelude.{◌≡◌, IfOk};
ghost use Rattle.qterm.specs.Store.{Has, tree_at};
ghost use Rattle.bound_lists.specs.DropWide.{width, is_narrow};

use qsubst::names_of;
use qterm::{Store, TermId};
use std::alloc::{AllocError, Global};

/// Whether a formula has at most `most` distinct names.
pub fn is_narrow(
    alloc: Global,
    store: &Store,
    formula: TermId,
    most: i128,
) -> Result<bool, AllocError>
    requires has { Has store.now formula }
    ensures narrow { IfOk result (λ b. b ≡ is_narrow most (tree_at store.now formula)) }
{
    let count = width(alloc, store, formula)?;
    let narrow = count as i128 <= most;
    Ok(narrow)
}

/// How many distinct names a formula has. Each subterm is visited once.
fn width(alloc: Global, store: &Store, formula: TermId) -> Result<usize, AllocError>
    requires has { Has store.now formula }
    ensures { IfOk result (λ count. count ≡ width (tree_at store.now formula)) }
{
    let names = names_of(alloc, store, &[formula])?;
    Ok(names.len())
}
