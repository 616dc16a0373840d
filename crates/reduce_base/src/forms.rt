//! The canonical forms of formulas.
ghost use Rattle.std.specs.Prelude.{All, IfOk, IfErr};
ghost use Rattle.std.specs.List.{AllZip};
ghost use Rattle.qterm.specs.Store.{Has, Extends, trees_of};
ghost use Rattle.qlin.specs.CanonList.{canon_each};
ghost use Rattle.qcanon.specs.Walk.{NamesFault};
ghost use Rattle.reduce_base.specs.Forms.{IsForm};

use qcanon::{CanonError, Forms, canon_with};
use qterm::{Store, TermId};
use std::alloc::{AllocError, Global};

/// The canonical form of each formula, in order. The first formula without one is told, with its first subterm that has none.
pub fn canonical_forms(
    alloc: Global,
    store: &mut Store,
    formulas: &[TermId],
) -> Result<Vec<TermId>, CanonError>
    requires has { All (Has store.old) formulas.now }
    ensures forms { IfOk result (λ cs. AllZip (IsForm store.old store.new) formulas.now cs.items) }
    ensures fault { IfErr result (NamesFault store.new (canon_each (trees_of store.old formulas.now))) }
    ensures extends { Extends store.old store.new }
{
    let mut table = Forms::new(alloc);
    let mut forms = Vec::new(alloc);
    for formula in formulas {
        match canon_with(alloc, store, &mut table, *formula) {
            Ok(form) => match forms.push(form) {
                Ok(()) => {}
                Err(e) => return Err(AllocError::from(e).into()),
            },
            Err(e) => return Err(e),
        }
    }
    Ok(forms)
}
