//! The formulas of few names of a canonical list, with the step of a certificate that keeps them alone.
ghost use Rattle.std.specs.Prelude.{◌≡◌, ◌<◌, ◌+◌, length, List, All, IfOk, OnOk};
ghost use Rattle.qterm.specs.Store.{Has, trees_of};
ghost use Rattle.tac_cert.specs.Items.{Item};
ghost use Rattle.tac_cert.specs.Accepts.{as_items};
ghost use Rattle.proof_conv.specs.Leaves.{StepsLeave};
ghost use Rattle.bound_lists.specs.DropWide.{has_wide, narrowing};
ghost use Rattle.tac_bounds.specs.Kept.{AreKept, narrow_ids};

use bound_lists::is_narrow;
use qgoal::Precision;
use qterm::{Store, TermId, TermIds};
use reduce_base::Listed;
use sqlite_items::Items;
use std::alloc::{AllocError, Global};
use tac_cert::Step;

/// The formulas of few names of a canonical list, with the steps of a certificate that lead from a goal's formulas to them.
#[derive(Drop)]
pub(crate) struct Narrowed {
    pub formulas: TermIds,
    pub steps: Items<Step>,
    /// Whether any formula of the list was dropped.
    pub dropped: bool,
}

/// Formulas of a list that are kept, with the numbers of their items.
#[derive(Drop)]
pub(crate) struct Kept {
    pub ids: Vec<TermId>,
    pub numbers: Items<u32>,
}

/// Keeps the formulas of a canonical list that have at most `most` distinct names.
pub(crate) fn narrow_list(
    alloc: Global,
    store: &Store,
    listed: Listed,
    most: i128,
) -> Result<Narrowed, AllocError>
    requires has { All (Has store.now) listed.formulas }
    ensures formulas { IfOk result (λ n. n.formulas ≡ narrow_ids store.now most listed.formulas) }
    ensures leads { IfOk result (λ n. (items : List Item) → StepsLeave store.now items listed.steps (as_items (trees_of store.now listed.formulas)) → StepsLeave store.now items n.steps (as_items (trees_of store.now n.formulas))) }
    ensures dropped { IfOk result (λ n. n.dropped ≡ has_wide most (trees_of store.now listed.formulas)) }
{
    let Listed {
        formulas,
        mut steps,
    } = listed;
    let kept = few_names(alloc, store, formulas.as_slice(), most)?;
    let Kept { ids, numbers } = kept;
    let dropped = ids.len() < formulas.len();
    steps.push(Step::Keep { items: numbers })?;
    Ok(Narrowed {
        formulas: TermIds::from_vec(ids),
        steps,
        dropped,
    })
}

/// The formulas of a list that have at most `most` distinct names, where the formulas of the list are the items.
fn few_names(alloc: Global, store: &Store, list: &[TermId], most: i128) -> Result<Kept, AllocError>
    requires has { All (Has store.now) list.now }
    ensures { IfOk result (AreKept store.now most list.now (length list.now)) }
{
    let mut kept = Kept {
        ids: Vec::new(alloc),
        numbers: Items::new(alloc),
    };
    for at in 0..list.len() {
        keep_narrow(alloc, store, list, at, most, &mut kept)?;
    }
    Ok(kept)
}

/// Keeps the formula at a place, where it has at most `most` distinct names.
fn keep_narrow(
    alloc: Global,
    store: &Store,
    list: &[TermId],
    at: usize,
    most: i128,
    kept: &mut Kept,
) -> Result<(), AllocError>
    requires has { All (Has store.now) list.now }
    requires within { at < length list.now }
    requires before { AreKept store.now most list.now at kept.old }
    ensures { OnOk result (AreKept store.now most list.now (at + 1) kept.new) }
{
    let id = list[at];
    let narrow = is_narrow(alloc, store, id, most)?;
    if !narrow {
        return Ok(());
    }
    let number = number_of(at)?;
    kept.ids.push(id)?;
    kept.numbers.push(number)?;
    Ok(())
}

/// The number of the item at a place, from 0.
fn number_of(place: usize) -> Result<u32, AllocError>
    ensures { IfOk result (λ number. number ≡ place + 1) }
{
    if place >= u32::MAX as usize {
        return Err(AllocError);
    }
    Ok(place as u32 + 1)
}

/// What the step is called: over, where any formula was dropped.
pub(crate) fn step_of(dropped: bool) -> Precision
    ensures { result ≡ narrowing dropped }
{
    if dropped {
        Precision::Over
    } else {
        Precision::Precise
    }
}
