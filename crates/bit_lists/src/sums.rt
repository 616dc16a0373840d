//! The terms that are put for names.
ghost use Rattle.std.specs.Prelude.{◌≡◌, ◌<◌, ◌≤◌, ◌^◌, pos, length, All, IfOk};
ghost use Rattle.qterm.specs.Tree.{Var, Scale};
ghost use Rattle.qterm.specs.Store.{HasSort, Shows, Extends, trees_of};
ghost use Rattle.qterm.specs.declared.name.Sort.TheVariants.{Int};
ghost use Rattle.qsubst.specs.Substitution.{AreImages};
ghost use Rattle.bit_lists.specs.Splits.{AllInt, AreInt};
ghost use Rattle.bit_lists.specs.Row.{weighted, bit_sum};
ghost use Rattle.bit_lists.specs.Steps.{AreSmall, HasImages};

use crate::splits::Split;
use qsubst::Images;
use qterm::{Name, Store, Term, TermId, TermIds};
use std::alloc::{AllocError, Global};

/// The names that are split, each with the sum of its bits.
pub(crate) fn images(
    alloc: Global,
    store: &mut Store,
    splits: &[Split],
) -> Result<Images, AllocError>
    requires ints { AreInt splits.now }
    requires small { AreSmall splits.now }
    ensures has { IfOk result (λ images. HasImages store.new images splits.now) }
    ensures images { IfOk result (AreImages store.new) }
    ensures extends { Extends store.old store.new }
{
    let mut images = Images::new(alloc);
    for split in splits {
        let sum = bit_sum(alloc, store, split.bits.as_slice())?;
        images.put(split.name.clone()?, sum)?;
    }
    Ok(images)
}

/// The sum of the bits times 1, 2, 4 and so on.
#[tactic(auto, using(crate::proofs::Looping::sum_row))]
pub(crate) fn bit_sum(alloc: Global, store: &mut Store, bits: &[Name]) -> Result<TermId, AllocError>
    requires ints { AllInt bits.now }
    requires small { length bits.now ≤ 127 }
    ensures shows { IfOk result (λ id. Shows store.new id (bit_sum bits.now)) }
    ensures sort { IfOk result (HasSort Int store.new) }
    ensures extends { Extends store.old store.new }
{
    let summands = weighted(alloc, store, bits)?;
    let sum = store.intern(Term::Sum(TermIds::from_vec(summands)))?;
    Ok(sum)
}

/// The bits times 1, 2, 4 and so on.
fn weighted(alloc: Global, store: &mut Store, bits: &[Name]) -> Result<Vec<TermId>, AllocError>
    requires ints { AllInt bits.now }
    requires small { length bits.now ≤ 127 }
    ensures trees { IfOk result (λ v. trees_of store.new v.items ≡ weighted 1 bits.now) }
    ensures sorts { IfOk result (λ v. All (HasSort Int store.new) v.items) }
    ensures extends { Extends store.old store.new }
{
    let mut summands = Vec::new(alloc);
    for at in 0..bits.len() {
        let summand = weigh(store, &bits[at], power(at))?;
        summands.push(summand)?;
    }
    Ok(summands)
}

/// A bit times its weight.
fn weigh(store: &mut Store, bit: &Name, weight: i128) -> Result<TermId, AllocError>
    requires int { bit.now.sort ≡ Int }
    ensures shows { IfOk result (λ id. Shows store.new id (Scale weight (Var bit.now))) }
    ensures sort { IfOk result (HasSort Int store.new) }
    ensures extends { Extends store.old store.new }
{
    let var = store.intern(Term::Var(bit.clone()?))?;
    let product = store.intern(Term::Scale(weight, var))?;
    Ok(product)
}

/// The number two to some power.
pub(crate) fn power(exponent: usize) -> i128
    requires small { exponent < 127 }
    ensures { result ≡ pos (2 ^ exponent) }
{
    (1u128 << exponent) as i128
}
