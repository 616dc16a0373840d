//! What the connectives ask of their sides, and the constants.
ghost use Rattle.std.specs.Prelude.{◌≡◌, IfOk};
ghost use Rattle.qterm.specs.Store.{Has, HasSort, Shows, Extends, tree_at};
ghost use Rattle.qterm.specs.declared.name.Sort.TheVariants.{Bool};
ghost use Rattle.qlin.specs.Order.{same, is_before};
ghost use Rattle.qlin.specs.Atom.{truth_tree};
ghost use Rattle.qlin.specs.Iff.{constant_of};

use qlin::compare;
use qterm::{Store, Term, TermId};
use std::alloc::AllocError;
use std::cmp::Ordering;

/// Which constant a formula is.
pub(crate) fn constant_of(store: &Store, id: TermId) -> Option<bool>
    requires has { Has store.now id }
    ensures { result ≡ constant_of (tree_at store.now id) }
{
    match store.view(id) {
        Term::True => Some(true),
        Term::False => Some(false),
        _ => None,
    }
}

/// Whether the tree of a term comes before that of another.
pub(crate) fn is_before(store: &Store, a: TermId, b: TermId) -> bool
    requires a_has { Has store.now a }
    requires b_has { Has store.now b }
    ensures { result ≡ is_before (tree_at store.now a) (tree_at store.now b) }
{
    compare(store, a, b) == Ordering::Less
}

/// Whether two terms have one tree.
#[tactic(auto, using(crate::proofs::Pairs::same_ids))]
pub(crate) fn is_same(store: &Store, a: TermId, b: TermId) -> bool
    requires a_has { Has store.now a }
    requires b_has { Has store.now b }
    ensures { result ≡ same (tree_at store.now a) (tree_at store.now b) }
{
    store.is_distinct();
    a == b
}

/// The formula of a truth value.
pub(crate) fn truth(store: &mut Store, value: bool) -> Result<TermId, AllocError>
    ensures shows { IfOk result (λ id. Shows store.new id (truth_tree value)) }
    ensures extends { Extends store.old store.new }
{
    store.intern(if value { Term::True } else { Term::False })
}
