//! Canonical sums of parts with all signs changed.
ghost use Rattle.std.specs.Prelude.{◌≡◌, ◌++◌, IfOk, All, negsuc};
ghost use Rattle.qterm.specs.Store.{HasSort, Shows, Extends, tree_at, trees_at};
ghost use Rattle.qterm.specs.declared.name.Sort.TheVariants.{Int};
ghost use Rattle.qlin.specs.Form.{part_term};
ghost use Rattle.qnegation.specs.Opposite.{opposite, opposite_part, opposite_parts};

use qlin::in_range;
use qterm::{Store, Term, TermId, TermIds};
use std::alloc::{AllocError, Global};

/// The term with the other sign: each part of a sum with the other sign, or the one part that the term is.
pub(crate) fn opposite(alloc: Global, store: &mut Store, id: TermId) -> Result<TermId, AllocError>
    requires int { HasSort Int store.old id }
    ensures shows { IfOk result (λ r. Shows store.new r (opposite (tree_at store.old id))) }
    ensures int { IfOk result (HasSort Int store.new) }
    ensures extends { Extends store.old store.new }
{
    let mut parts = Vec::new(alloc);
    match store.view(id) {
        Term::Sum(all) => parts.extend_from_slice(all.as_slice())?,
        _ => return opposite_part(store, id),
    }
    let all = opposite_parts(alloc, store, parts.as_slice())?;
    let sum = store.intern(Term::Sum(TermIds::from_vec(all)))?;
    Ok(sum)
}

/// Each part with the other sign.
fn opposite_parts(
    alloc: Global,
    store: &mut Store,
    ids: &[TermId],
) -> Result<Vec<TermId>, AllocError>
    requires ints { All (HasSort Int store.old) ids.now }
    ensures same { IfOk result (λ v. trees_at store.new v.items ≡ opposite_parts (trees_at store.old ids.now)) }
    ensures ints { IfOk result (λ v. All (HasSort Int store.new) v.items) }
    ensures extends { Extends store.old store.new }
{
    let mut all = Vec::new(alloc);
    for id in ids {
        let part = opposite_part(store, *id)?;
        all.push(part)?;
    }
    Ok(all)
}

/// A part with the other sign.
fn opposite_part(store: &mut Store, id: TermId) -> Result<TermId, AllocError>
    requires int { HasSort Int store.old id }
    ensures shows { IfOk result (λ r. Shows store.new r (opposite_part (tree_at store.old id))) }
    ensures int { IfOk result (HasSort Int store.new) }
    ensures extends { Extends store.old store.new }
{
    match store.view(id) {
        Term::Scale(number, monomial) => {
            let number = *number;
            let monomial = *monomial;
            if in_range(number) {
                part_term(store, -number, monomial)
            } else {
                store.intern(Term::Scale(-1, id))
            }
        }
        _ => store.intern(Term::Scale(-1, id)),
    }
}

/// A number times a monomial, which stands alone where the number is 1.
fn part_term(store: &mut Store, number: i128, monomial: TermId) -> Result<TermId, AllocError>
    requires int { HasSort Int store.old monomial }
    ensures shows { IfOk result (λ id. Shows store.new id (part_term number (tree_at store.old monomial))) }
    ensures int { IfOk result (HasSort Int store.new) }
    ensures extends { Extends store.old store.new }
{
    if number == 1 {
        Ok(monomial)
    } else {
        store.intern(Term::Scale(number, monomial))
    }
}
