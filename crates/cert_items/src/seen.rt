//! The terms below the items, each once, so that a name is looked up in no time however many items there are.
//!
//! An item adds the terms that weren't there: what is below a term that was there isn't visited again.
ghost use Rattle.std.specs.Prelude.{◌≡◌, ◌++◌, ℕ, List, take, length, OnOk, IfOk};
ghost use Rattle.qwalk.specs.Seen.{AreSubterms};
ghost use Rattle.cert_items.specs.Seen.{monomials, roots};
ghost use Rattle.cert_items.specs.Held.{IsIn};

use crate::held::Held;
use qterm::{Store, TermId};
use qwalk::Seen;
use std::alloc::{AllocError, Global};

/// Takes in the terms that an item is made of, and all below them that aren't there. The roots `before`, those of `items`, are there.
pub(crate) fn see_item(
    alloc: Global,
    store: &Store,
    seen: &mut Seen,
    items: &[Held],
    item: &Held,
) -> Result<(), AllocError>
    ghost before: { List ℕ }
    requires item { IsIn store.now item.now }
    requires seen { AreSubterms store.now before seen.old }
    ensures seen { OnOk result (AreSubterms store.now (before ++ roots item.now) seen.new) }
    ensures same { OnOk result (take (length seen.old) seen.new ≡ seen.old) }
{
    let _items = items.len();
    let roots = roots_of(alloc, item)?;
    seen.see(store, roots.as_slice())?;
    Ok(())
}

/// The terms that an item is made of.
fn roots_of(alloc: Global, item: &Held) -> Result<Vec<TermId>, AllocError>
    ensures { IfOk result (λ v. v.items ≡ roots item.now) }
{
    match item {
        Held::Formula(id) => Vec::from_slice(alloc, &[*id]),
        Held::OfWord(word) => {
            let mut ids = monomials_of(alloc, word.form.parts())?;
            ids.extend_from_slice(word.bits.as_slice())?;
            Ok(ids)
        }
    }
}

/// The monomials of a form.
fn monomials_of(alloc: Global, parts: &[(i128, TermId)]) -> Result<Vec<TermId>, AllocError>
    ensures { IfOk result (λ v. v.items ≡ monomials parts.now) }
{
    parts.iter().map(|part| part.1).collect(alloc)
}
