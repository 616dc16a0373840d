//! Whether two terms have one canonical form. The table of canonical forms is kept over the whole check.
ghost use Rattle.std.specs.Prelude.{◌≡◌, IfOk, OnOk};
ghost use Rattle.qterm.specs.Store.{Has, Extends, tree_at};
ghost use Rattle.qlin.specs.Canon.{canon as canon_of};
ghost use Rattle.qcanon.specs.Chain.{AreForms};
ghost use Rattle.tac_cert.specs.Formulas as rules;

use qcanon::Forms;
use qterm::{Store, TermId};
use std::alloc::{AllocError, Global};

/// Whether two terms have canonical forms, and these are equal.
pub(crate) fn are_equal(
    alloc: Global,
    store: &mut Store,
    forms: &mut Forms,
    a: TermId,
    b: TermId,
) -> Result<bool, AllocError>
    requires left { Has store.old a }
    requires right { Has store.old b }
    requires forms { AreForms store.old forms.old }
    ensures value { IfOk result (λ yes. yes ≡ rules.are_equal (canon_of (tree_at store.old a)) (canon_of (tree_at store.old b))) }
    ensures forms { OnOk result (AreForms store.new forms.new) }
    ensures extends { Extends store.old store.new }
{
    match forms.find(alloc, store, a)? {
        None => Ok(false),
        Some(c) => match forms.find(alloc, store, b)? {
            None => Ok(false),
            Some(d) => {
                store.is_distinct();
                Ok(c == d)
            }
        },
    }
}
