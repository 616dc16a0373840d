//! Assertions and strategies as the tables write them.
//!
//! Assertions are written with the children before their sign, a byte each: `p` to `s` are Bool names, `x` to `z` Int names and digits
//! numbers; `!` is Not, `<` at most, `=` Eq, `|`, `&` and `+` are an Or, an And and a Sum of two, and `F` is `false`. Each term that no
//! sign takes is an assertion.

use qterm::{Sort, Store, Term, TermId};
use sexp_read::{Next, next_sexp};
use std::alloc::{AllocError, Global};
use strat_text::{Strategy, read_strategy};
use table_terms::{put, put_and, put_name, put_or, put_sum};

/// The last term.
fn pop(stack: &mut Vec<TermId>) -> Result<TermId, AllocError> {
    Ok(stack.pop().ok_or(AllocError)?)
}

/// The term of a sign over the last two.
fn over_two(
    alloc: Global,
    store: &mut Store,
    stack: &mut Vec<TermId>,
    sign: u8,
) -> Result<TermId, AllocError> {
    let right = pop(stack)?;
    let left = pop(stack)?;
    match sign {
        b'<' => Ok(put(store, Term::Le(left, right))?),
        b'=' => Ok(put(store, Term::Eq(left, right))?),
        b'|' => Ok(put_or(alloc, store, &[left, right])?),
        b'&' => Ok(put_and(alloc, store, &[left, right])?),
        b'+' => Ok(put_sum(alloc, store, &[left, right])?),
        _ => Err(AllocError),
    }
}

/// The term of a byte, over the terms before it.
fn term(
    alloc: Global,
    store: &mut Store,
    stack: &mut Vec<TermId>,
    sign: u8,
) -> Result<TermId, AllocError> {
    match sign {
        b'p'..=b's' => Ok(put_name(alloc, store, &[sign], Sort::Bool)?),
        b'x'..=b'z' => Ok(put_name(alloc, store, &[sign], Sort::Int)?),
        b'0'..=b'9' => Ok(put(store, Term::Num((sign - b'0') as i128))?),
        b'F' => Ok(put(store, Term::False)?),
        b'!' => {
            let of = pop(stack)?;
            Ok(put(store, Term::Not(of))?)
        }
        _ => over_two(alloc, store, stack, sign),
    }
}

/// The assertions of a text.
pub fn asserts(alloc: Global, store: &mut Store, text: &str) -> Result<Vec<TermId>, AllocError> {
    let mut stack = Vec::new(alloc);
    for sign in text.as_bytes() {
        let id = term(alloc, store, &mut stack, *sign)?;
        stack.push(id)?;
    }
    Ok(stack)
}

/// The strategy of a text, whatever its names.
pub fn strategy(alloc: Global, text: &str) -> Result<Strategy, AllocError> {
    let bytes = text.as_bytes();
    match next_sexp(alloc, bytes, 0)? {
        Next::Item(sexp, _) => match read_strategy(alloc, bytes, &sexp, None) {
            Ok(strategy) => Ok(strategy),
            Err(_) => Err(AllocError),
        },
        _ => Err(AllocError),
    }
}
