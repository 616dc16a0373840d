//! Rows of `qlin`: the order of trees, sums, multiples and terms of small forms, and shared terms of many levels.
ghost use Rattle.std.specs.Prelude.{◌≡◌, IfOk};
ghost use Rattle.qterm.specs.Store.{HasSort};
ghost use Rattle.qterm.specs.declared.name.Sort.TheVariants.{Int};
ghost use Rattle.qlin.specs.Lin.{IsForm};

use qlin::{
    Lin, LinError, compare, content_is_greatest, forms_stay, in_range, sort_terms,
    trees_are_ordered,
};
use qterm::{Name, Sort, Store, Term, TermId};
use std::alloc::{AllocError, Global};
use std::cmp::Ordering;
use std::test::Fail;
use table_terms::{Plain, has_all, named, put, put_name, put_sum};

/// The numbers x and y. The store has y before x, whose text comes first.
fn names(alloc: Global, store: &mut Store) -> Result<[TermId; 2], AllocError> {
    let y = put_name(alloc, store, b"y", Sort::Int)?;
    let x = put_name(alloc, store, b"x", Sort::Int)?;
    Ok([x, y])
}

/// Terms in the order of trees.
fn in_order(alloc: Global, store: &mut Store) -> Result<Vec<TermId>, AllocError> {
    let [x, y] = names(alloc, store)?;
    let p = put_name(alloc, store, b"x", Sort::Bool)?;
    let rows = [
        Plain::Scale(-1, y),
        Plain::Scale(2, x),
        Plain::Le(x, y),
        Plain::Eq(x, y),
        Plain::Iff(p, p),
        Plain::Not(p),
        Plain::Ite(p, x, y),
    ];
    let mut all = vec![in alloc; p, x, y]?;
    for row in rows {
        all.push(put(store, row.term())?)?;
    }
    Ok(all)
}

#[test]
fn trees_have_their_order(rt: HostRuntime) -> Result<(), Fail> {
    let mut store = Store::new(rt.alloc());
    let all = in_order(rt.alloc(), &mut store)?;
    for (at, left) in all.iter().enumerate() {
        for (other, right) in all.iter().enumerate() {
            assert!(rt; store.has(*left) && store.has(*right));
            assert!(rt; compare(&store, *left, *right) == at.cmp(&other));
        }
    }
    trees_are_ordered();
    content_is_greatest();
    forms_stay();
    Ok(())
}

/// The form `a * x + k`.
fn line(alloc: Global, store: &Store, a: i128, x: TermId, k: i128) -> Result<Lin, AllocError>
    requires int { HasSort Int store.now x }
    ensures { IfOk result (IsForm store.now) }
{
    let one = Lin::monomial(alloc, store, x)?;
    match one.scale(alloc, a) {
        Ok(left) => match left.add(alloc, store, &Lin::number(alloc, k)) {
            Ok(sum) => Ok(sum),
            Err(_) => Err(AllocError),
        },
        Err(_) => Err(AllocError),
    }
}

#[test]
fn forms_are_tightened(rt: HostRuntime) -> Result<(), Fail> {
    let alloc = rt.alloc();
    let mut store = Store::new(alloc);
    let [x, _] = names(alloc, &mut store)?;
    assert!(rt; store.has(x) && store.sort(x) == Sort::Int);
    let form = line(alloc, &store, -4, x, 0)?;
    assert!(rt; form.constant() == 0 && form.parts().len() == 1);
    let (tight, bound) = form.tighten(alloc, -3)?;
    assert!(rt; tight.parts() == [(-1, x)].as_slice() && bound == -1);
    Ok(())
}

#[test]
fn forms_that_pass_128_bits_are_wide(rt: HostRuntime) -> Result<(), Fail> {
    let alloc = rt.alloc();
    let mut store = Store::new(alloc);
    let [x, _] = names(alloc, &mut store)?;
    assert!(rt; store.has(x) && store.sort(x) == Sort::Int);
    let most = line(alloc, &store, i128::MAX, x, i128::MIN)?;
    most.numbers_fit();
    assert!(rt; matches!(most.scale(alloc, -1), Err(LinError::Wide)));
    assert!(rt; !most.is_in_range() && !in_range(i128::MIN) && in_range(i128::MAX));
    Ok(())
}

/// The atom `a * x + k <= 0`.
fn at_most(
    alloc: Global,
    store: &mut Store,
    a: i128,
    x: TermId,
    k: i128,
) -> Result<TermId, AllocError>
    requires int { HasSort Int store.old x }
{
    let form = line(alloc, store, a, x, k)?;
    if form.is_in_range() {
        form.at_most_zero(alloc, store)
    } else {
        Err(AllocError)
    }
}

/// The atom `a * x + k = 0`.
fn equal(
    alloc: Global,
    store: &mut Store,
    a: i128,
    x: TermId,
    k: i128,
) -> Result<TermId, AllocError>
    requires int { HasSort Int store.old x }
{
    let form = line(alloc, store, a, x, k)?;
    if form.is_in_range() {
        form.equals_zero(alloc, store)
    } else {
        Err(AllocError)
    }
}

/// The form times -1, where each of its numbers is in range.
fn turned(alloc: Global, store: &Store, form: &Lin) -> Result<Lin, AllocError>
    requires form { IsForm store.now form.now }
    ensures { IfOk result (IsForm store.now) }
{
    let _store = store;
    if form.is_in_range() {
        form.turned(alloc)
    } else {
        Err(AllocError)
    }
}

#[test]
fn atoms_have_the_least_numbers(rt: HostRuntime) -> Result<(), Fail> {
    let alloc = rt.alloc();
    let mut store = Store::new(alloc);
    let [x, _] = names(alloc, &mut store)?;
    let two = put(&mut store, Term::Num(2))?;
    let minus = put(&mut store, Term::Num(-2))?;
    let negative = put(&mut store, Term::Scale(-1, x))?;
    let rows = [
        (2, 3, Plain::Le(x, minus), Plain::False),
        (-2, 4, Plain::Le(negative, minus), Plain::Eq(x, two)),
        (0, -1, Plain::True, Plain::False),
    ];
    for (a, k, bound, equation) in rows {
        assert!(rt; store.has(x) && store.sort(x) == Sort::Int);
        let found = at_most(alloc, &mut store, a, x, k)?;
        assert!(rt; found == put(&mut store, bound.term())?);
        assert!(rt; store.has(x) && store.sort(x) == Sort::Int);
        let found = equal(alloc, &mut store, a, x, k)?;
        assert!(rt; found == put(&mut store, equation.term())?);
    }
    Ok(())
}

#[test]
fn forms_are_turned_and_written(rt: HostRuntime) -> Result<(), Fail> {
    let alloc = rt.alloc();
    let mut store = Store::new(alloc);
    let [x, _] = names(alloc, &mut store)?;
    assert!(rt; store.has(x) && store.sort(x) == Sort::Int);
    let form = line(alloc, &store, -1, x, 0)?;
    assert!(rt; form.copy(alloc)?.parts() == [(-1, x)].as_slice());
    let turned = turned(alloc, &store, &form)?;
    assert!(rt; turned.to_term(alloc, &mut store)? == x);
    Ok(())
}

/// Whether the form read off a number has this number as its constant, and no part.
#[tactic(auto, using(crate::proofs::FormRows::number_sort, crate::proofs::FormRows::number_linear))]
fn reads_number(alloc: Global, store: &mut Store, number: i128) -> Result<bool, AllocError> {
    let id = store.intern(Term::Num(number))?;
    let form = Lin::read(alloc, store, id)?;
    Ok(form.constant() == number && form.parts().is_empty())
}

/// Whether the form read off the name of a number has the name as its part.
#[tactic(auto, using(crate::proofs::FormRows::name_sort, crate::proofs::FormRows::name_linear))]
fn reads_name(alloc: Global, store: &mut Store, name: Name) -> Result<bool, AllocError>
    requires int { name.sort ≡ Int }
{
    let id = store.intern(Term::Var(name))?;
    let form = Lin::read(alloc, store, id)?;
    Ok(form.constant() == 0 && form.parts() == [(1, id)].as_slice())
}

#[test]
fn forms_are_read(rt: HostRuntime) -> Result<(), Fail> {
    let mut store = Store::new(rt.alloc());
    assert!(rt; reads_number(rt.alloc(), &mut store, -7)?);
    let name = named(rt.alloc(), b"x", Sort::Int)?;
    assert!(rt; reads_name(rt.alloc(), &mut store, name)?);
    Ok(())
}

/// Whether the form of two parts and the constant 5 has these parts.
#[tactic(auto, using(crate::proofs::FormRows::two_apart))]
fn collects(
    alloc: Global,
    store: &Store,
    first: (i128, TermId),
    second: (i128, TermId),
    want: &[(i128, TermId)],
) -> Result<bool, AllocError>
    requires first_int { HasSort Int store.now first.1 }
    requires second_int { HasSort Int store.now second.1 }
    requires apart { first.1 ≡ second.1 → ⊥ }
{
    let form = Lin::collect(alloc, store, &[first, second], 5)?;
    Ok(form.constant() == 5 && form.parts() == want)
}

#[test]
fn forms_are_collected(rt: HostRuntime) -> Result<(), Fail> {
    let mut store = Store::new(rt.alloc());
    let [x, y] = names(rt.alloc(), &mut store)?;
    assert!(rt; store.has(x) && store.sort(x) == Sort::Int);
    assert!(rt; store.has(y) && store.sort(y) == Sort::Int && x != y);
    assert!(rt; collects(rt.alloc(), &store, (0, x), (3, y), &[(3, y)])?);
    assert!(rt; collects(rt.alloc(), &store, (2, y), (3, x), &[(3, x), (2, y)])?);
    Ok(())
}

/// Sums of sums: each level has the one below it twice.
fn tower(
    alloc: Global,
    store: &mut Store,
    lowest: i128,
    levels: usize,
) -> Result<TermId, AllocError> {
    let mut top = put(store, Term::Num(lowest))?;
    for _ in 0..levels {
        top = put_sum(alloc, store, &[top, top])?;
    }
    Ok(top)
}

#[test]
fn shared_terms_are_compared_fast(rt: HostRuntime) -> Result<(), Fail> {
    let alloc = rt.alloc();
    let mut store = Store::new(alloc);
    let a = tower(alloc, &mut store, 1, 100_000)?;
    let b = tower(alloc, &mut store, 2, 100_000)?;
    assert!(rt; store.has(a) && store.has(b));
    assert!(rt; compare(&store, a, b) == Ordering::Less);
    Ok(())
}

/// Numbers out of order, with repeats.
fn numbers(alloc: Global, store: &mut Store, count: u32) -> Result<Vec<TermId>, AllocError> {
    let mut ids = Vec::new(alloc);
    for at in 0..count {
        ids.push(put(store, Term::Num((at as i128 * 7919) % 10_007))?)?;
    }
    Ok(ids)
}

#[test]
fn many_terms_sort_fast(rt: HostRuntime) -> Result<(), Fail> {
    let alloc = rt.alloc();
    let mut store = Store::new(alloc);
    let mut ids = numbers(alloc, &mut store, 20_000)?;
    assert!(rt; has_all(&store, ids.as_slice()));
    assert!(rt; sort_terms(alloc, &store, &mut ids)?.len() == 10_007);
    Ok(())
}
