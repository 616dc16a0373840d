//! Rows of `smt_expand`: bodies over one argument.
use qterm::{Name, Sort, Store, Term, TermId};
use smt_expand::expand;
use std::alloc::{AllocError, Global};
use std::slice;
use std::test::Fail;
use table_terms::{named, put, put_name, put_sum};

/// The body with an argument put for its one parameter; want of memory where they are none of the store, or of other sorts.
fn over(
    alloc: Global,
    store: &mut Store,
    param: &Name,
    arg: TermId,
    body: TermId,
) -> Result<Option<TermId>, AllocError> {
    if !store.has(body) || !store.has(arg) || store.sort(arg) != param.sort() {
        return Err(AllocError);
    }
    let found = expand(
        alloc,
        store,
        slice::from_ref(param),
        slice::from_ref(&arg),
        body,
    )?;
    Ok(found)
}

/// The greatest power of two that 128 bits have with a sign.
const GREATEST: i128 = 1 << 126;

// The function f(y) = y + y, and g(y) = 2 * y.
#[test]
fn constants_are_folded_over_arguments(rt: HostRuntime) -> Result<(), Fail> {
    let alloc = rt.alloc();
    let mut store = Store::new(alloc);
    let y = named(alloc, b"y", Sort::Int)?;
    let param = put_name(alloc, &mut store, b"y", Sort::Int)?;
    let x = put_name(alloc, &mut store, b"x", Sort::Int)?;
    let three = put(&mut store, Term::Num(3))?;
    let six = put(&mut store, Term::Num(6))?;
    let wide = put(&mut store, Term::Num(GREATEST))?;
    let sum = put_sum(alloc, &mut store, &[param, param])?;
    let twice = put(&mut store, Term::Scale(2, param))?;
    let sum_of_x = put_sum(alloc, &mut store, &[x, x])?;
    let twice_x = put(&mut store, Term::Scale(2, x))?;
    for (body, arg, wanted) in [
        (sum, three, Some(six)),
        (sum, x, Some(sum_of_x)),
        (sum, wide, None),
        (twice, three, Some(six)),
        (twice, x, Some(twice_x)),
        (twice, wide, None),
        (three, x, Some(three)),
    ] {
        assert_eq!(rt; over(alloc, &mut store, &y, arg, body)?, wanted);
    }
    Ok(())
}
