//! The steps that carry a model of split formulas back.
ghost use Rattle.std.specs.Prelude.{◌≡◌, ◌++◌, map, length, ◌≤◌, IfOk, OnOk};
ghost use Rattle.model_conv.specs.Step.{AreLawful};
ghost use Rattle.bit_lists.specs.Splits.{all_bits, AreInt};
ghost use Rattle.bit_lists.specs.Steps.{AreSmall};
ghost use Rattle.bit_lists.specs.Lifting.{form_of, assign_of, forget_of, lifting};

use crate::splits::Split;
use crate::sums::power;
use model_conv::LiftStep;
use qterm::Name;
use sqlite_items::Items;
use std::alloc::{AllocError, Global};

/// The steps that carry a model of split formulas back: each name gets the number that its bits are, and then the bits are taken out.
/// Steps are run from the last to the first.
pub fn lifting(alloc: Global, splits: &[Split]) -> Result<Items<LiftStep>, AllocError>
    requires ints { AreInt splits.now }
    requires small { AreSmall splits.now }
    ensures steps { IfOk result (λ steps. steps ≡ lifting splits.now) }
    ensures lawful { IfOk result AreLawful }
{
    let mut steps = forgets(alloc, splits)?;
    steps.append(assigns(alloc, splits)?)?;
    Ok(steps)
}

/// The steps that take the bits out.
fn forgets(alloc: Global, splits: &[Split]) -> Result<Items<LiftStep>, AllocError>
    ensures { IfOk result (λ steps. steps ≡ map forget_of (all_bits splits.now)) }
{
    let mut steps = Items::new(alloc);
    for split in splits {
        forget_all(split.bits.as_slice(), &mut steps)?;
    }
    Ok(steps)
}

/// Puts the steps that take these bits out at the end.
fn forget_all(bits: &[Name], steps: &mut Items<LiftStep>) -> Result<(), AllocError>
    ensures { OnOk result (steps.new ≡ steps.old ++ map forget_of bits.now) }
{
    for bit in bits {
        steps.push(LiftStep::Forget { name: bit.clone()? })?;
    }
    Ok(())
}

/// The steps that give the names their values.
fn assigns(alloc: Global, splits: &[Split]) -> Result<Items<LiftStep>, AllocError>
    requires small { AreSmall splits.now }
    ensures { IfOk result (λ steps. steps ≡ map assign_of splits.now) }
{
    let mut steps = Items::new(alloc);
    for split in splits {
        steps.push(assign(alloc, split)?)?;
    }
    Ok(steps)
}

/// The step that gives a name the number that its bits are.
fn assign(alloc: Global, split: &Split) -> Result<LiftStep, AllocError>
    requires small { length split.now.bits ≤ 127 }
    ensures { IfOk result (λ step. step ≡ assign_of split.now) }
{
    Ok(LiftStep::Assign {
        name: split.name.clone()?,
        form: form(alloc, split.bits.as_slice())?,
        constant: 0,
    })
}

/// The bits with their weights 1, 2, 4 and so on.
fn form(alloc: Global, bits: &[Name]) -> Result<Items<(i128, Name)>, AllocError>
    requires small { length bits.now ≤ 127 }
    ensures { IfOk result (λ form. form ≡ form_of 1 bits.now) }
{
    let mut form = Items::new(alloc);
    for at in 0..bits.len() {
        form.push((power(at), bits[at].clone()?))?;
    }
    Ok(form)
}
