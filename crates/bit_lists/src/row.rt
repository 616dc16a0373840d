//! The formulas with their names split.
ghost use Rattle.std.specs.Prelude.{◌≡◌, ◌++◌, ◌∷◌, [], ◌+ℤ◌, ◌^◌, ◌≤◌, ◌&&◌, ℤ, pos, negsuc, length, List, All, IfOk, OnOk, if◌then◌else◌};
ghost use Rattle.std.specs.List.{list_any};
ghost use Rattle.std.specs.Ordering.{int_eq};
ghost use Rattle.qterm.specs.Tree.{Var, Num, Scale, Le, False};
ghost use Rattle.qterm.specs.Store.{Has, HasSort, Shows, Extends, tree_at, trees_of};
ghost use Rattle.qterm.specs.declared.name.Sort.TheVariants.{Bool, Int};
ghost use Rattle.qeval.specs.Bounds.{number_in};
ghost use Rattle.qsubst.specs.Substitution.{replaced_each, AreImages};
ghost use Rattle.bit_lists.specs.declared.splits.Split.{Split};
ghost use Rattle.bit_lists.specs.Splits.{AllInt, AreInt};
ghost use Rattle.bit_lists.specs.Row.{bit_sum, images_of, is_split, bounds_split, is_bound, unbounded, bit_bounds, sum_bound, following};
ghost use Rattle.bit_lists.specs.Steps.{AreSmall, HasImages};

use crate::splits::Split;
use crate::sums::{bit_sum, images, power};
use qsubst::{Images, substitute};
use qterm::{Name, Store, Term, TermId};
use std::alloc::{AllocError, Global};

/// The formula `false` alone.
pub(crate) fn closed(alloc: Global, store: &mut Store) -> Result<Vec<TermId>, AllocError>
    ensures closed { IfOk result (λ v. trees_of store.new v.items ≡ False ∷ []) }
    ensures formulas { IfOk result (λ v. All (HasSort Bool store.new) v.items) }
    ensures extends { Extends store.old store.new }
{
    let mut formulas = Vec::with_capacity(alloc, 1)?;
    formulas.push(store.intern(Term::False)?)?;
    Ok(formulas)
}

/// The formulas without the bounds of the names that are split, with these names replaced, and then the bounds of their bits.
pub(crate) fn split_list(
    alloc: Global,
    store: &mut Store,
    list: &[TermId],
    splits: &[Split],
) -> Result<Vec<TermId>, AllocError>
    requires formulas { All (HasSort Bool store.old) list.now }
    requires ints { AreInt splits.now }
    requires small { AreSmall splits.now }
    ensures split { IfOk result (λ v. trees_of store.new v.items ≡ replaced_each (images_of splits.now) (unbounded splits.now (trees_of store.old list.now)) ++ following splits.now) }
    ensures formulas { IfOk result (λ v. All (HasSort Bool store.new) v.items) }
    ensures extends { Extends store.old store.new }
{
    let images = images(alloc, store, splits)?;
    let kept = unbounded(alloc, store, &images, list)?;
    let mut formulas = substitute(alloc, store, &images, kept.as_slice())?;
    push_following(alloc, store, splits, &mut formulas)?;
    Ok(formulas)
}

/// The formulas without the bounds of the names that are split.
fn unbounded(
    alloc: Global,
    store: &Store,
    images: &Images,
    list: &[TermId],
) -> Result<Vec<TermId>, AllocError>
    requires formulas { All (HasSort Bool store.now) list.now }
    ensures unbounded { IfOk result (λ v. (ss : List Split) → HasImages store.now images.now ss → trees_of store.now v.items ≡ unbounded ss (trees_of store.now list.now)) }
    ensures formulas { IfOk result (λ v. All (HasSort Bool store.now) v.items) }
{
    let mut kept = Vec::new(alloc);
    for formula in list {
        keep(store, images, *formula, &mut kept)?;
    }
    Ok(kept)
}

/// Puts a formula at the end, unless it is a bound of a name that is split.
fn keep(
    store: &Store,
    images: &Images,
    formula: TermId,
    kept: &mut Vec<TermId>,
) -> Result<(), AllocError>
    requires formula { HasSort Bool store.now formula }
    requires formulas { All (HasSort Bool store.now) kept.old.items }
    ensures kept { OnOk result ((ss : List Split) → HasImages store.now images.now ss → trees_of store.now kept.new.items ≡ trees_of store.now kept.old.items ++ (if is_bound ss (tree_at store.now formula) then [] else tree_at store.now formula ∷ [])) }
    ensures formulas { OnOk result (All (HasSort Bool store.now) kept.new.items) }
{
    if is_bound(store, images, formula) {
        return Ok(());
    }
    kept.push(formula)?;
    Ok(())
}

/// Whether a formula is a bound of a name that is split.
fn is_bound(store: &Store, images: &Images, formula: TermId) -> bool
    requires has { Has store.now formula }
    ensures { (ss : List Split) → HasImages store.now images.now ss → result ≡ is_bound ss (tree_at store.now formula) }
{
    match store.view(formula) {
        Term::Le(left, right) => match store.view(*right) {
            Term::Num(number) => bounds_split(store, images, *left, *number),
            _ => false,
        },
        _ => false,
    }
}

/// Whether a term that is at most a number is a name that is split, or -1 times one.
fn bounds_split(store: &Store, images: &Images, term: TermId, number: i128) -> bool
    requires has { Has store.now term }
    ensures { (ss : List Split) → HasImages store.now images.now ss → result ≡ bounds_split ss (tree_at store.now term) number }
{
    match store.view(term) {
        Term::Scale(by, of) => *by == -1 && number != i128::MIN && is_split(store, images, *of),
        _ => is_split(store, images, term),
    }
}

/// Whether a term is a name that is split.
fn is_split(store: &Store, images: &Images, term: TermId) -> bool
    requires has { Has store.now term }
    ensures { (ss : List Split) → HasImages store.now images.now ss → result ≡ is_split ss (tree_at store.now term) }
{
    match store.view(term) {
        Term::Var(name) => images.get(name).is_some(),
        _ => false,
    }
}

/// Puts the bounds of the bits at the end, split by split.
fn push_following(
    alloc: Global,
    store: &mut Store,
    splits: &[Split],
    formulas: &mut Vec<TermId>,
) -> Result<(), AllocError>
    requires ints { AreInt splits.now }
    requires small { AreSmall splits.now }
    requires formulas { All (HasSort Bool store.old) formulas.old.items }
    ensures following { OnOk result (trees_of store.new formulas.new.items ≡ trees_of store.old formulas.old.items ++ following splits.now) }
    ensures formulas { OnOk result (All (HasSort Bool store.new) formulas.new.items) }
    ensures extends { Extends store.old store.new }
{
    for split in splits {
        push_bit_bounds(store, split.bits.as_slice(), formulas)?;
        push_sum_bound(alloc, store, split, formulas)?;
    }
    Ok(())
}

/// Puts the bounds 0 and 1 of each bit at the end.
fn push_bit_bounds(
    store: &mut Store,
    bits: &[Name],
    formulas: &mut Vec<TermId>,
) -> Result<(), AllocError>
    requires ints { AllInt bits.now }
    requires formulas { All (HasSort Bool store.old) formulas.old.items }
    ensures bounds { OnOk result (trees_of store.new formulas.new.items ≡ trees_of store.old formulas.old.items ++ bit_bounds bits.now) }
    ensures formulas { OnOk result (All (HasSort Bool store.new) formulas.new.items) }
    ensures extends { Extends store.old store.new }
{
    for bit in bits {
        push_bit_bound(store, bit, formulas)?;
    }
    Ok(())
}

/// Puts the bounds 0 and 1 of a bit at the end.
fn push_bit_bound(
    store: &mut Store,
    bit: &Name,
    formulas: &mut Vec<TermId>,
) -> Result<(), AllocError>
    requires int { bit.now.sort ≡ Int }
    requires formulas { All (HasSort Bool store.old) formulas.old.items }
    ensures bounds { OnOk result (trees_of store.new formulas.new.items ≡ trees_of store.old formulas.old.items ++ bit_bounds (bit.now ∷ [])) }
    ensures formulas { OnOk result (All (HasSort Bool store.new) formulas.new.items) }
    ensures extends { Extends store.old store.new }
{
    let var = store.intern(Term::Var(bit.clone()?))?;
    let low = at_least_zero(store, var)?;
    formulas.push(low)?;
    let up = at_most(store, var, 1)?;
    formulas.push(up)?;
    Ok(())
}

/// Puts the upper bound of the sum of the bits at the end, where as many bits could be more.
fn push_sum_bound(
    alloc: Global,
    store: &mut Store,
    split: &Split,
    formulas: &mut Vec<TermId>,
) -> Result<(), AllocError>
    requires ints { AllInt split.now.bits }
    requires small { length split.now.bits ≤ 127 }
    requires formulas { All (HasSort Bool store.old) formulas.old.items }
    ensures bound { OnOk result (trees_of store.new formulas.new.items ≡ trees_of store.old formulas.old.items ++ sum_bound split.now) }
    ensures formulas { OnOk result (All (HasSort Bool store.new) formulas.new.items) }
    ensures extends { Extends store.old store.new }
{
    if is_full(split) {
        return Ok(());
    }
    let sum = bit_sum(alloc, store, split.bits.as_slice())?;
    let bound = at_most(store, sum, split.up)?;
    formulas.push(bound)?;
    Ok(())
}

/// Whether the upper bound is the greatest number of as many bits.
fn is_full(split: &Split) -> bool
    requires small { length split.now.bits ≤ 127 }
    ensures { result ≡ int_eq (split.now.up +ℤ pos 1) (pos (2 ^ length split.now.bits)) }
{
    is_greatest(split.up, split.bits.len())
}

/// Whether a number is the greatest of so many bits.
fn is_greatest(up: i128, count: usize) -> bool
    requires small { count ≤ 127 }
    ensures { result ≡ int_eq (up +ℤ pos 1) (pos (2 ^ count)) }
{
    if count == 127 {
        up == i128::MAX
    } else {
        up == power(count) - 1
    }
}

/// That a term is at least 0.
fn at_least_zero(store: &mut Store, term: TermId) -> Result<TermId, AllocError>
    requires int { HasSort Int store.old term }
    ensures shows { IfOk result (λ id. Shows store.new id (Le (Scale (negsuc 0) (tree_at store.old term)) (Num (pos 0)))) }
    ensures sort { IfOk result (HasSort Bool store.new) }
    ensures extends { Extends store.old store.new }
{
    let minus = store.intern(Term::Scale(-1, term))?;
    let zero = store.intern(Term::Num(0))?;
    let bound = store.intern(Term::Le(minus, zero))?;
    Ok(bound)
}

/// That a term is at most a number.
fn at_most(store: &mut Store, term: TermId, number: i128) -> Result<TermId, AllocError>
    requires int { HasSort Int store.old term }
    ensures shows { IfOk result (λ id. Shows store.new id (Le (tree_at store.old term) (Num number))) }
    ensures sort { IfOk result (HasSort Bool store.new) }
    ensures extends { Extends store.old store.new }
{
    let number = store.intern(Term::Num(number))?;
    let bound = store.intern(Term::Le(term, number))?;
    Ok(bound)
}
