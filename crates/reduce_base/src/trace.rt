//! The items of a certificate, with the steps that lead to them.
ghost use Rattle.std.specs.Prelude.{◌≡◌, ◌∷◌, ◌++◌, [], Some, OnOk, IfOk, All, ◌+◌, length};
ghost use Rattle.std.specs.List.{AllZip};
ghost use Rattle.qterm.specs.Store.{Has, HasSort, tree_at, trees_of};
ghost use Rattle.qterm.specs.declared.name.Sort.TheVariants.{Bool};
ghost use Rattle.tac_cert.specs.Items.{Formula};
ghost use Rattle.tac_cert.specs.Gives.{gives, StepFits};
ghost use Rattle.goal_depth.specs.Depths.{AreShallow};
ghost use Rattle.reduce_base.specs.Forms.{IsForm};
ghost use Rattle.reduce_base.specs.Trace.{shown, LeadsOn};

use qterm::{Store, TermId};
use sqlite_items::Items;
use std::alloc::AllocError;
use tac_cert::Step;

/// The items of a certificate so far, all formulas, with the steps that lead to them.
#[derive(Drop)]
pub(crate) struct Trace {
    pub items: Vec<TermId>,
    pub steps: Items<Step>,
}

/// Puts a step at the end, with the one item that it gives.
pub(crate) fn push(
    _store: &Store,
    trace: &mut Trace,
    step: Step,
    item: TermId,
) -> Result<(), AllocError>
    requires fits { StepFits _store.now step }
    requires gives { gives _store.now (shown _store.now trace.old) step ≡ Some (shown _store.now trace.old ++ Formula (tree_at _store.now item) ∷ []) }
    ensures items { OnOk result (trace.new.items.items ≡ trace.old.items.items ++ item ∷ []) }
    ensures leads { OnOk result (LeadsOn _store.now trace.old trace.new) }
{
    trace.items.push(item)?;
    trace.steps.push(step)?;
    Ok(())
}

/// The number of the item behind so many others.
pub(crate) fn number_behind(count: usize) -> Result<u32, AllocError>
    ensures { IfOk result (λ number. number ≡ count + 1) }
{
    if count >= u32::MAX as usize {
        return Err(AllocError);
    }
    Ok(count as u32 + 1)
}

/// The number of the next item.
pub(crate) fn next_number(trace: &Trace) -> Result<u32, AllocError>
    ensures { IfOk result (λ number. number ≡ length trace.now.items.items + 1) }
{
    let number = number_behind(trace.items.as_slice().len())?;
    Ok(number)
}

/// The number of the item at a place, from 0, behind so many others.
pub(crate) fn number_at(behind: usize, place: usize) -> Result<u32, AllocError>
    ensures { IfOk result (λ number. number ≡ behind + place + 1) }
{
    match behind.checked_add(place) {
        Some(count) => number_behind(count),
        None => Err(AllocError),
    }
}

/// Rewrites each formula of a goal, which are the first items, to its canonical form.
pub(crate) fn rewrite_all(
    store: &Store,
    trace: &mut Trace,
    goal: &[TermId],
    forms: &[TermId],
) -> Result<(), AllocError>
    requires formulas { All (HasSort Bool store.now) goal.now }
    requires shallow { AreShallow (trees_of store.now goal.now) }
    requires forms { AllZip (IsForm store.now store.now) goal.now forms.now }
    requires start { trace.old.items.items ≡ goal.now }
    ensures items { OnOk result (trace.new.items.items ≡ goal.now ++ forms.now) }
    ensures leads { OnOk result (LeadsOn store.now trace.old trace.new) }
{
    store.is_lawful();
    for at in 0..forms.len() {
        let form = forms[at];
        let item = number_behind(at)?;
        push(
            store,
            trace,
            Step::Rw {
                item,
                formula: form,
            },
            form,
        )?;
    }
    Ok(())
}
