//! The names of a list of formulas, numbered.
ghost use Rattle.std.specs.Prelude.{◌≡◌, All, IfOk, map};
ghost use Rattle.qterm.specs.Store.{Has, trees_of};
ghost use Rattle.qterm.specs.Tree.{Var};
ghost use Rattle.qsubst.specs.Names.{names_of};

use qsubst::names_of;
use qterm::{Store, TermId};
use sat_clauses::{Numbers, numbers_of};
use std::alloc::{AllocError, Global};

/// The names of the formulas, numbered in name order.
///
/// Want of memory stands for more names than 32 bits can number.
pub fn number_names(alloc: Global, store: &Store, list: &[TermId]) -> Result<Numbers, AllocError>
    requires has { All (Has store.now) list.now }
    ensures names { IfOk result (λ n. trees_of store.now n ≡ map Var (names_of (trees_of store.now list.now))) }
    ensures has { IfOk result (λ n. All (Has store.now) n) }
{
    let vars = names_of(alloc, store, list)?;
    let numbers = numbers_of(alloc, vars.as_slice())?;
    Ok(numbers)
}
