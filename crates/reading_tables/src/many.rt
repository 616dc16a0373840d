//! The limit on the distinct subterms that the assertions in force and the terms of a command have together, at its bound.

use crate::scripts::joined;
use itoa::Buffer;
use qterm::Store;
use smt_command::commands;
use smt_words::{ScriptError, What};
use std::alloc::{AllocError, Global};
use std::test::Fail;

/// `(assert (= x (+ x A .. B)))` over the 1,024 numerals that begin behind 1,024 times `row`.
///
/// Its subterms are x, the numerals, the sum and the equation: 1,026 beside x.
fn add_row(text: &mut Vec<u8>, row: u32) -> Result<(), AllocError> {
    let mut buffer = Buffer::new();
    text.extend_from_slice(b"(assert (= x (+ x")?;
    for column in 1..=1_024u32 {
        text.push(b' ')?;
        let number = row.wrapping_mul(1_024).wrapping_add(column);
        text.extend_from_slice(buffer.format(number).as_bytes())?;
    }
    text.extend_from_slice(b")))")?;
    Ok(())
}

/// A declaration of x and 1,022 assertions, which have 1,022 * 1,026 + 1 = 1,048,573 distinct subterms, and then an open level.
fn rows(alloc: Global) -> Result<Vec<u8>, AllocError> {
    let mut text = Vec::new(alloc);
    text.extend_from_slice(b"(declare-const x Int)")?;
    for row in 0..1_022u32 {
        add_row(&mut text, row)?;
    }
    text.extend_from_slice(b"(push)")?;
    Ok(text)
}

/// The fault of a script that goes on behind the rows.
fn fault_behind(
    alloc: Global,
    rows: &[u8],
    before: &[u8],
    last: &[u8],
) -> Result<Option<ScriptError>, AllocError> {
    let text = joined(alloc, &[rows, before, last])?;
    let mut store = Store::new(alloc);
    let script = commands(alloc, text.as_slice(), &mut store, None)?;
    Ok(script.fault)
}

/// An assertion with three subterms that the rows don't have, which makes 1,048,576.
const FULL: &[u8] = b"(assert (= x (+ x 2000000)))";

/// Texts that keep the limit behind the rows: where nothing is new, and where subterms are gone with their level or by a reset.
const WITHIN: [(&[u8], &[u8]); 2] = [
    (
        FULL,
        b"(get-value (x 7 2000000))(pop)(get-value (0))(assert (= x (+ x 0)))(get-value (x))",
    ),
    (FULL, b"(reset-assertions)(get-value (0 1))"),
];

/// Texts that pass the limit with their second part: by a term that is asked for, by one that `let` binds and nothing uses, by that of a
/// definition, and by an assertion with four subterms that are new.
const PAST: [(&[u8], &[u8]); 4] = [
    (FULL, b"(get-value (0))"),
    (FULL, b"(get-value ((let ((y 0)) x)))"),
    (FULL, b"(define-fun f () Int 0)"),
    (b"(pop)", b"(assert (= x (+ x 2000000 0)))"),
];

#[test]
fn most_terms(rt: HostRuntime) -> Result<(), Fail> {
    let alloc = rt.alloc();
    let rows = rows(alloc)?;
    for (before, last) in WITHIN {
        assert_eq!(rt; fault_behind(alloc, rows.as_slice(), before, last)?, None);
    }
    for (before, last) in PAST {
        let what = What::TooManyTerms;
        let place = rows.len() + before.len();
        assert_eq!(rt;
            fault_behind(alloc, rows.as_slice(), before, last)?,
            Some(ScriptError { what, place })
        );
    }
    Ok(())
}
