//! The steps that carry a model of shifted formulas back.
ghost use Rattle.std.specs.Prelude.{◌≡◌, IfOk, map};
ghost use Rattle.model_conv.specs.Step.{AreLawful};
ghost use Rattle.shift_lists.specs.Shifts.{AreInt};
ghost use Rattle.shift_lists.specs.Lifting.{assign_of, forget_of, lifting};

use crate::shifting::Shift;
use model_conv::LiftStep;
use sqlite_items::Items;
use std::alloc::{AllocError, Global};

/// The steps that carry a model of shifted formulas back: each name gets the value of its fresh name plus the number, and then the fresh
/// names are taken out. Steps are run from the last to the first.
pub fn lifting(alloc: Global, shifts: &[Shift]) -> Result<Items<LiftStep>, AllocError>
    requires ints { AreInt shifts.now }
    ensures steps { IfOk result (λ steps. steps ≡ lifting shifts.now) }
    ensures lawful { IfOk result AreLawful }
{
    let mut steps = forgets(alloc, shifts)?;
    steps.append(assigns(alloc, shifts)?)?;
    Ok(steps)
}

/// The steps that take the fresh names out.
fn forgets(alloc: Global, shifts: &[Shift]) -> Result<Items<LiftStep>, AllocError>
    ensures { IfOk result (λ steps. steps ≡ map forget_of shifts.now) }
{
    let mut steps = Items::new(alloc);
    for shift in shifts {
        steps.push(LiftStep::Forget {
            name: shift.fresh.clone()?,
        })?;
    }
    Ok(steps)
}

/// The steps that give the names their values.
fn assigns(alloc: Global, shifts: &[Shift]) -> Result<Items<LiftStep>, AllocError>
    ensures { IfOk result (λ steps. steps ≡ map assign_of shifts.now) }
{
    let mut steps = Items::new(alloc);
    for shift in shifts {
        steps.push(assign(alloc, shift)?)?;
    }
    Ok(steps)
}

/// The step that gives a name the value of its fresh name plus the number.
fn assign(alloc: Global, shift: &Shift) -> Result<LiftStep, AllocError>
    ensures { IfOk result (λ step. step ≡ assign_of shift.now) }
{
    let mut form = Items::new(alloc);
    form.push((1, shift.fresh.clone()?))?;
    Ok(LiftStep::Assign {
        name: shift.name.clone()?,
        form,
        constant: shift.by,
    })
}
