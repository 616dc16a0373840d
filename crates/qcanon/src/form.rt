//! Linear forms of canonical terms, and their terms.
ghost use Rattle.std.specs.Prelude.{◌≡◌, IfOk, IfSome, List};
ghost use Rattle.std.specs.Option.{option_map};
ghost use Rattle.qterm.specs.Tree.{Tree};
ghost use Rattle.qterm.specs.Store.{HasSort, Extends, tree_at};
ghost use Rattle.qterm.specs.declared.name.Sort.TheVariants.{Int};
ghost use Rattle.qlin.specs.Form.{form, term, if_in_range};
ghost use Rattle.qlin.specs.Lin.{form_at, IsForm};
ghost use Rattle.qnegation.specs.Answer.{IsOwn, Answers};
ghost use Rattle.qcanon.specs.Sums.{GivesForm, IsNarrow};

use qcanon_laws::is_linear;
use qlin::Lin;
use qterm::{Store, TermId};
use std::alloc::{AllocError, Global};

/// The form of a canonical Int term. Each number of it is in range.
pub(crate) fn read(alloc: Global, store: &Store, id: TermId) -> Result<Lin, AllocError>
    requires int { HasSort Int store.now id }
    requires own { IsOwn store.now id }
    ensures form { IfOk result (IsForm store.now) }
    ensures same { IfOk result (λ l. form_at store.now l ≡ form (tree_at store.now id)) }
    ensures narrow { IfOk result IsNarrow }
{
    store.is_lawful();
    is_linear();
    Lin::read(alloc, store, id)
}

/// The form, where each number of it is in range.
pub(crate) fn narrow(form: Lin) -> Option<Lin>
    ensures gives { (ts : List Tree) → IsForm ts form → GivesForm ts (if_in_range (form_at ts form)) result }
    ensures narrow { IfSome result IsNarrow }
{
    if form.is_in_range() { Some(form) } else { None }
}

/// The term of a form, if there is one.
pub(crate) fn write(
    alloc: Global,
    store: &mut Store,
    form: Option<Lin>,
) -> Result<Option<TermId>, AllocError>
    requires form { IfSome form (IsForm store.old) }
    ensures answers { IfOk result (Answers store.new (option_map (λ l. term (form_at store.old l)) form)) }
    ensures extends { Extends store.old store.new }
{
    match form {
        Some(form) => {
            let id = form.to_term(alloc, store)?;
            Ok(Some(id))
        }
        None => Ok(None),
    }
}
