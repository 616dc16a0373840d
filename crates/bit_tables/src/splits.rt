//! One bounded name: the formulas that come of it, the value that its bits give it, and why it is refused.
ghost use Rattle.std.specs.Prelude.{◌↔◌, ◌≡◌, All, IfOk, IsTrue};
ghost use Rattle.model_conv.specs.Step.{AreLawful};
ghost use Rattle.qterm.specs.declared.name.Sort.TheVariants.{Bool, Int};
ghost use Rattle.qterm.specs.Store.{HasSort};

use bit_lists::{Refusal, SplitError, lifting, split_names};
use model_conv::{LiftError, LiftStep, ModelConv};
use qeval::{Model, Value};
use qterm::{Name, Sort, Store, TermId};
use sqlite_items::Items;
use std::alloc::{AllocError, Global};
use std::test::Fail;
use table_terms::{Plain, named, put, put_name, put_sum};

/// Whether these are formulas of the store.
fn are_in(store: &Store, ids: &[TermId]) -> bool
    ensures { IsTrue result ↔ All (HasSort Bool store.now) ids.now }
{
    ids.iter()
        .all(|id| store.has(*id) && store.sort(*id) == Sort::Bool)
}

/// That a term is at least 0.
fn at_least_zero(store: &mut Store, term: TermId) -> Result<TermId, AllocError> {
    let minus = put(store, Plain::Scale(-1, term).term())?;
    let zero = put(store, Plain::Num(0).term())?;
    put(store, Plain::Le(minus, zero).term())
}

/// That a term is at most a number.
fn at_most(store: &mut Store, term: TermId, number: i128) -> Result<TermId, AllocError> {
    let bound = put(store, Plain::Num(number).term())?;
    put(store, Plain::Le(term, bound).term())
}

/// `x` is at least 0 and at most the number.
fn bounded(alloc: Global, store: &mut Store, up: i128) -> Result<[TermId; 2], AllocError> {
    let x = put_name(alloc, store, b"x", Sort::Int)?;
    Ok([at_least_zero(store, x)?, at_most(store, x, up)?])
}

/// The bounds of `x!0`, `x!1` and `x!2`, and that they are at most 5 with the weights 1, 2 and 4.
fn three_bits(alloc: Global, store: &mut Store) -> Result<[TermId; 7], AllocError> {
    let first = put_name(alloc, store, b"x!0", Sort::Int)?;
    let second = put_name(alloc, store, b"x!1", Sort::Int)?;
    let third = put_name(alloc, store, b"x!2", Sort::Int)?;
    let summands = [
        put(store, Plain::Scale(1, first).term())?,
        put(store, Plain::Scale(2, second).term())?,
        put(store, Plain::Scale(4, third).term())?,
    ];
    let sum = put_sum(alloc, store, &summands)?;
    Ok([
        at_least_zero(store, first)?,
        at_most(store, first, 1)?,
        at_least_zero(store, second)?,
        at_most(store, second, 1)?,
        at_least_zero(store, third)?,
        at_most(store, third, 1)?,
        at_most(store, sum, 5)?,
    ])
}

/// Whether the formulas with their names split are these.
fn becomes(
    alloc: Global,
    store: &mut Store,
    list: &[TermId],
    expected: &[TermId],
) -> Result<bool, AllocError> {
    if !are_in(store, list) {
        return Ok(false);
    }
    match split_names(alloc, store, list, list, 32) {
        Ok(found) => Ok(found.formulas.as_slice() == expected),
        Err(SplitError::Memory(cause)) => Err(cause),
        Err(SplitError::Refused(_)) => Ok(false),
    }
}

/// Why names of the formulas can't be split, where their bounds may have two digits.
fn refusal(
    alloc: Global,
    store: &mut Store,
    list: &[TermId],
) -> Result<Option<Refusal>, AllocError> {
    if !are_in(store, list) {
        return Ok(None);
    }
    match split_names(alloc, store, list, list, 2) {
        Ok(_) => Ok(None),
        Err(SplitError::Memory(cause)) => Err(cause),
        Err(SplitError::Refused(refusal)) => Ok(Some(refusal)),
    }
}

/// The steps that carry models of the formulas back, where their names can be split.
fn steps_back(
    alloc: Global,
    store: &mut Store,
    list: &[TermId],
) -> Result<Items<LiftStep>, AllocError>
    ensures lawful { IfOk result AreLawful }
{
    if !are_in(store, list) {
        return Err(AllocError);
    }
    match split_names(alloc, store, list, list, 32) {
        Ok(found) => lifting(alloc, found.splits.as_slice()),
        Err(SplitError::Memory(cause)) => Err(cause),
        Err(SplitError::Refused(_)) => Err(AllocError),
    }
}

/// The Int name with this text.
fn int(alloc: Global, text: &[u8]) -> Result<Name, AllocError>
    ensures { IfOk result (λ name. name.sort ≡ Int) }
{
    named(alloc, text, Sort::Int)
}

/// The model in which `x!0`, `x!1` and `x!2` are these numbers.
fn bits_are(alloc: Global, numbers: [i128; 3]) -> Result<Model, AllocError> {
    let [first, second, third] = numbers;
    let mut model = Model::new(alloc);
    model.set(int(alloc, b"x!0")?, Value::Int(first))?;
    model.set(int(alloc, b"x!1")?, Value::Int(second))?;
    model.set(int(alloc, b"x!2")?, Value::Int(third))?;
    Ok(model)
}

/// The model that the steps make of one.
fn carried(alloc: Global, steps: Items<LiftStep>, model: Model) -> Result<Model, AllocError>
    requires lawful { AreLawful steps }
{
    let mut lists = Items::new(alloc);
    lists.push(steps)?;
    match ModelConv::of(lists).lift(0, model) {
        Ok(model) => Ok(model),
        Err(LiftError::Memory(cause)) => Err(cause),
        Err(LiftError::Wide { name: _ }) => Err(AllocError),
    }
}

#[test]
fn models_go_back(rt: HostRuntime) -> Result<(), Fail> {
    let alloc = rt.alloc();
    let mut store = Store::new(alloc);
    let six = bounded(alloc, &mut store, 6)?;
    let steps = steps_back(alloc, &mut store, &six)?;
    let model = carried(alloc, steps, bits_are(alloc, [0, 1, 1])?)?;
    assert!(rt; model.get(&int(alloc, b"x")?) == Value::Int(6));
    assert_eq!(rt; model.len(), 1);
    Ok(())
}

#[test]
fn one_name(rt: HostRuntime) -> Result<(), Fail> {
    let alloc = rt.alloc();
    let mut store = Store::new(alloc);
    let bits = three_bits(alloc, &mut store)?;
    let none = put(&mut store, Plain::False.term())?;
    let five = bounded(alloc, &mut store, 5)?;
    assert!(rt; becomes(alloc, &mut store, &five, &bits)?);
    let seven = bounded(alloc, &mut store, 7)?;
    let all = bits.as_slice();
    let first = &all[0..6];
    assert!(rt; becomes(alloc, &mut store, &seven, first)?);
    let one = bounded(alloc, &mut store, 1)?;
    assert!(rt; becomes(alloc, &mut store, &one, &one)?);
    let zero = bounded(alloc, &mut store, 0)?;
    assert!(rt; becomes(alloc, &mut store, &zero, &[])?);
    let negative = bounded(alloc, &mut store, -1)?;
    assert!(rt; becomes(alloc, &mut store, &negative, &[none])?);
    Ok(())
}

#[test]
fn refusals(rt: HostRuntime) -> Result<(), Fail> {
    let alloc = rt.alloc();
    let mut store = Store::new(alloc);
    let [low, up] = bounded(alloc, &mut store, 4)?;
    assert!(rt;
        matches!(
            refusal(alloc, &mut store, &[low, up])?,
            Some(Refusal::TooManyBits(_))
        )
    );
    assert!(rt;
        matches!(
            refusal(alloc, &mut store, &[low])?,
            Some(Refusal::NotBounded(_))
        )
    );
    assert!(rt;
        matches!(
            refusal(alloc, &mut store, &[up])?,
            Some(Refusal::NotBounded(_))
        )
    );
    let [_, three] = bounded(alloc, &mut store, 3)?;
    assert!(rt; refusal(alloc, &mut store, &[low, three])?.is_none());
    Ok(())
}
