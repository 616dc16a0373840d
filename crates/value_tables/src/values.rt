//! Rows of `qeval`: models, values of terms, and the first subterm that passes 128 bits.
use qeval::{EvalError, Model, Value, bounds_are_tightest, eval, truth_is_within_bounds};
use qterm::{Sort, Store, Term, TermId};
use std::alloc::{AllocError, Global};
use std::test::Fail;
use table_terms::{Plain, named, put, put_and, put_or, put_sum};

/// The model that has x, y and z in this order, where x was given a second value.
fn three_names(alloc: Global) -> Result<Model, AllocError> {
    let mut model = Model::new(alloc);
    let rows: [(&[u8], i128); 4] = [(b"x", 1), (b"y", 2), (b"z", 3), (b"x", 4)];
    for (text, number) in rows {
        model.set(named(alloc, text, Sort::Int)?, Value::Int(number))?;
    }
    Ok(model)
}

/// Whether the model has these Int names, by their texts, with these numbers in order.
fn has_rows(alloc: Global, model: &Model, rows: &[(&[u8], i128)]) -> Result<bool, AllocError> {
    for (at, row) in rows.iter().enumerate() {
        let name = named(alloc, row.0, Sort::Int)?;
        if at >= model.len()
            || *model.name_at(at) != name
            || model.value_at(at) != Value::Int(row.1)
        {
            return Ok(false);
        }
    }
    Ok(model.len() == rows.len())
}

#[test]
fn models_keep_the_order_of_their_names(rt: HostRuntime) -> Result<(), Fail> {
    let alloc = rt.alloc();
    assert!(rt; Model::new(alloc).is_empty());
    let mut model = three_names(alloc)?;
    assert!(rt; has_rows(alloc, &model, &[(b"x", 4), (b"y", 2), (b"z", 3)])?);
    model.forget(&named(alloc, b"y", Sort::Int)?);
    assert!(rt; has_rows(alloc, &model, &[(b"x", 4), (b"z", 3)])?);
    bounds_are_tightest();
    truth_is_within_bounds();
    Ok(())
}

/// The value of a term, or its first subterm that passes 128 bits.
type Found = Result<Value, TermId>;

/// What is found for a term of the store.
fn found(alloc: Global, store: &Store, id: TermId, model: &Model) -> Result<Found, AllocError> {
    if !store.has(id) {
        return Err(AllocError);
    }
    match &eval(alloc, store, id, model) {
        Ok(value) => Ok(Ok(*value)),
        Err(EvalError::Wide { term }) => Ok(Err(*term)),
        Err(EvalError::Memory(_)) => Err(AllocError),
    }
}

/// The value that a model has for a name, and what is found for its term.
fn found_for_name(
    alloc: Global,
    model: &Model,
    text: &[u8],
    sort: Sort,
) -> Result<(Value, Found), AllocError> {
    let mut store = Store::new(alloc);
    let name = named(alloc, text, sort)?;
    let value = model.get(&name);
    let id = put(&mut store, Term::Var(name))?;
    Ok((value, found(alloc, &store, id, model)?))
}

#[test]
fn names_have_the_values_of_the_model(rt: HostRuntime) -> Result<(), Fail> {
    let model = three_names(rt.alloc())?;
    let rows: [(&[u8], Sort, Value); 4] = [
        (b"x", Sort::Int, Value::Int(4)),
        (b"y", Sort::Int, Value::Int(2)),
        (b"u", Sort::Int, Value::Int(0)),
        (b"x", Sort::Bool, Value::Bool(false)),
    ];
    for (text, sort, want) in rows {
        assert!(rt; found_for_name(rt.alloc(), &model, text, sort)? == (want, Ok(want)));
    }
    Ok(())
}

/// What is found for a term without names.
fn found_closed(alloc: Global, store: &Store, id: TermId) -> Result<Found, AllocError> {
    let model = Model::new(alloc);
    found(alloc, store, id, &model)
}

/// The numbers -3 and 2.
fn numbers(store: &mut Store) -> Result<[TermId; 2], AllocError> {
    Ok([put(store, Term::Num(-3))?, put(store, Term::Num(2))?])
}

/// True and false.
fn truths(store: &mut Store) -> Result<[TermId; 2], AllocError> {
    Ok([put(store, Term::True)?, put(store, Term::False)?])
}

/// Whether this is found for terms without names.
fn are_found(
    alloc: Global,
    store: &mut Store,
    rows: &[(Plain, Found)],
) -> Result<bool, AllocError> {
    for row in rows {
        let id = put(store, row.0.term())?;
        if found_closed(alloc, store, id)? != row.1 {
            return Ok(false);
        }
    }
    Ok(true)
}

#[test]
fn operators_of_fixed_arity(rt: HostRuntime) -> Result<(), Fail> {
    let mut store = Store::new(rt.alloc());
    let [minus, two] = numbers(&mut store)?;
    let [yes, no] = truths(&mut store)?;
    let rows = [
        (Plain::Num(-3), Ok(Value::Int(-3))),
        (Plain::Scale(-2, minus), Ok(Value::Int(6))),
        (Plain::Le(two, two), Ok(Value::Bool(true))),
        (Plain::Le(two, minus), Ok(Value::Bool(false))),
        (Plain::Eq(two, two), Ok(Value::Bool(true))),
        (Plain::Eq(minus, two), Ok(Value::Bool(false))),
        (Plain::True, Ok(Value::Bool(true))),
        (Plain::False, Ok(Value::Bool(false))),
        (Plain::Not(no), Ok(Value::Bool(true))),
        (Plain::Iff(no, no), Ok(Value::Bool(true))),
        (Plain::Iff(yes, no), Ok(Value::Bool(false))),
        (Plain::Ite(yes, minus, two), Ok(Value::Int(-3))),
        (Plain::Ite(no, yes, no), Ok(Value::Bool(false))),
    ];
    assert!(rt; are_found(rt.alloc(), &mut store, &rows)?);
    Ok(())
}

#[test]
fn sums(rt: HostRuntime) -> Result<(), Fail> {
    let alloc = rt.alloc();
    let mut store = Store::new(alloc);
    let [minus, two] = numbers(&mut store)?;
    let rows: [(&[TermId], i128); 3] = [(&[], 0), (&[two], 2), (&[two, two, minus, two], 3)];
    for (ids, want) in rows {
        let sum = put_sum(alloc, &mut store, ids)?;
        assert!(rt; found_closed(alloc, &store, sum)? == Ok(Value::Int(want)));
    }
    Ok(())
}

#[test]
fn conjunctions_and_disjunctions(rt: HostRuntime) -> Result<(), Fail> {
    let alloc = rt.alloc();
    let mut store = Store::new(alloc);
    let [yes, no] = truths(&mut store)?;
    let rows: [(&[TermId], bool, bool); 4] = [
        (&[], true, false),
        (&[yes, yes], true, true),
        (&[yes, no], false, true),
        (&[no, no], false, false),
    ];
    for (ids, all, any) in rows {
        let and = put_and(alloc, &mut store, ids)?;
        assert!(rt; found_closed(alloc, &store, and)? == Ok(Value::Bool(all)));
        let or = put_or(alloc, &mut store, ids)?;
        assert!(rt; found_closed(alloc, &store, or)? == Ok(Value::Bool(any)));
    }
    Ok(())
}

/// Twice 2^127 - 1, and the sums of 2^127 - 1 with 2 and then -3, and with -3 and then 2: only the last is within 128 bits in
/// each of its beginnings.
fn great(alloc: Global, store: &mut Store) -> Result<[TermId; 3], AllocError> {
    let [minus, two] = numbers(store)?;
    let most = put(store, Term::Num(i128::MAX))?;
    let double = put(store, Term::Scale(2, most))?;
    let wide = put_sum(alloc, store, &[most, two, minus])?;
    let narrow = put_sum(alloc, store, &[most, minus, two])?;
    Ok([double, wide, narrow])
}

#[test]
fn the_first_wide_subterm_in_postorder_is_told(rt: HostRuntime) -> Result<(), Fail> {
    let mut store = Store::new(rt.alloc());
    let [double, wide, narrow] = great(rt.alloc(), &mut store)?;
    let [yes, _] = truths(&mut store)?;
    let rows = [
        (Plain::Le(wide, double), Err(wide)),
        (Plain::Eq(double, wide), Err(double)),
        (Plain::Ite(yes, narrow, double), Err(double)),
        (Plain::Ite(yes, narrow, wide), Err(wide)),
        (
            Plain::Ite(yes, narrow, narrow),
            Ok(Value::Int(i128::MAX - 1)),
        ),
    ];
    assert!(rt; are_found(rt.alloc(), &mut store, &rows)?);
    Ok(())
}
