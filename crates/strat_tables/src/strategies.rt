//! Strategies as text: those that are read and written again, and those that are refused.

use sexp_read::{Next, next_sexp};
use std::alloc::{AllocError, Global};
use std::test::Fail;
use strat_text::{ReducerName, StratError, Strategy, is_allowed, read_strategy, write_strategy};

/// The strategy that a text is read as.
fn read(alloc: Global, text: &[u8], names: Option<&[ReducerName]>) -> Result<Strategy, StratError> {
    match next_sexp(alloc, text, 0)? {
        Next::Item(sexp, _) => read_strategy(alloc, text, &sexp, names),
        _ => Err(StratError::BadStrategy(text.len())),
    }
}

/// A letter of the form, and its number of parts, turns or lemmas.
fn outline(strategy: &Strategy) -> (u8, u64) {
    match strategy {
        Strategy::Prim(name) => (b'N', name.text().len() as u64),
        Strategy::Then(parts) => (b'T', parts.len() as u64),
        Strategy::OrElse(parts) => (b'O', parts.len() as u64),
        Strategy::ParOr(parts) => (b'P', parts.len() as u64),
        Strategy::ParThen(_, _) => (b'Q', 2),
        Strategy::If(_, _, _) => (b'I', 3),
        Strategy::When(_, _) => (b'W', 2),
        Strategy::FailIf(_) => (b'F', 1),
        Strategy::Repeat(_, turns) => (b'R', *turns),
        Strategy::Params(_, settings) => (b'U', settings.len() as u64),
        Strategy::TryFor(_, limit) => (b'L', *limit),
    }
}

/// Whether a strategy with this outline was read.
fn is_read(found: Result<Strategy, StratError>, wanted: (u8, u64)) -> bool {
    match found {
        Ok(strategy) => outline(&strategy) == wanted,
        Err(_) => false,
    }
}

/// A text, the letter of its form and a number.
const READ: [(&[u8], u8, u64); 46] = [
    (b"skip", b'N', 4),
    (b"a", b'N', 1),
    (b"then", b'N', 4),
    (b"-", b'N', 1),
    (b"<=", b'N', 2),
    (b"is-01", b'N', 5),
    (b"(then a b)", b'T', 2),
    (b"(then a b c d)", b'T', 4),
    (b"(or-else a b)", b'O', 2),
    (b"(or-else a b c)", b'O', 3),
    (b"(par-or a b)", b'P', 2),
    (b"(par-then a b)", b'Q', 2),
    (b"(par-then (par-or a b) c)", b'Q', 2),
    (b"(if size a b)", b'I', 3),
    (b"(when depth a)", b'W', 2),
    (b"(fail-if num-exprs)", b'F', 1),
    (b"(fail-if num-consts)", b'F', 1),
    (b"(fail-if is-propositional)", b'F', 1),
    (b"(fail-if is-canonical)", b'F', 1),
    (b"(fail-if is-bounded)", b'F', 1),
    (b"(fail-if is-01)", b'F', 1),
    (b"(fail-if max-bits)", b'F', 1),
    (b"(fail-if 5)", b'F', 1),
    (b"(fail-if (- 5))", b'F', 1),
    (b"(fail-if (- 0))", b'F', 1),
    (
        b"(fail-if 170141183460469231731687303715884105727)",
        b'F',
        1,
    ),
    (
        b"(fail-if (- 170141183460469231731687303715884105728))",
        b'F',
        1,
    ),
    (b"(fail-if (< size 3))", b'F', 1),
    (b"(fail-if (<= size 3))", b'F', 1),
    (b"(fail-if (> size 3))", b'F', 1),
    (b"(fail-if (>= size 3))", b'F', 1),
    (b"(fail-if (= size 3))", b'F', 1),
    (b"(fail-if (and size))", b'F', 1),
    (b"(fail-if (or size depth 1))", b'F', 1),
    (b"(fail-if (not (and (< size 3) (or is-01))))", b'F', 1),
    (b"(repeat a)", b'R', 1000),
    (b"(repeat a 0)", b'R', 0),
    (b"(repeat a 4294967295)", b'R', 4294967295),
    (b"(using-params a :lia2pb_max_bits 64)", b'U', 1),
    (b"(using-params a :lia2pb_max_bits 1)", b'U', 1),
    (
        b"(using-params a :add_bound_lower (- 170141183460469231731687303715884105727) :add_bound_upper 170141183460469231731687303715884105727)",
        b'U',
        2,
    ),
    (
        b"(using-params a :drop_wide_max 0 :drop_wide_max 1048576)",
        b'U',
        2,
    ),
    (b"(try-for a 0)", b'L', 0),
    (
        b"(try-for a 4611686018427387904)",
        b'L',
        4611686018427387904,
    ),
    (
        b"(then simplify propagate-values solve-eqs elim-uncnstr elim-term-ite normalize-bounds lia2pb bit-blast sat)",
        b'T',
        9,
    ),
    (b" ; a comment\n( then  a\tb )", b'T', 2),
];

#[test]
fn reads_each_form(rt: HostRuntime) -> Result<(), Fail> {
    let alloc = rt.alloc();
    for (text, letter, number) in READ.iter() {
        assert!(rt; is_read(read(alloc, *text, None), (*letter, *number)));
    }
    Ok(())
}

/// Whether a text is refused for this fault.
fn is_refused(found: Result<Strategy, StratError>, fault: StratError) -> bool {
    match found {
        Ok(_) => false,
        Err(error) => error == fault,
    }
}

/// A text and its first fault, where every name may stand.
const REFUSED: [(&[u8], StratError); 69] = [
    (b"(then)", StratError::BadStrategy(0)),
    (b"(then a)", StratError::BadStrategy(0)),
    (b"(or-else a)", StratError::BadStrategy(0)),
    (b"(or-else)", StratError::BadStrategy(0)),
    (b"(par-or a)", StratError::BadStrategy(0)),
    (b"(par-then a)", StratError::BadStrategy(0)),
    (b"(par-then a b c)", StratError::BadStrategy(0)),
    (b"(if size a)", StratError::BadStrategy(0)),
    (b"(if size a b c)", StratError::BadStrategy(0)),
    (b"(when size)", StratError::BadStrategy(0)),
    (b"(when size a b)", StratError::BadStrategy(0)),
    (b"(fail-if)", StratError::BadStrategy(0)),
    (b"(fail-if size a)", StratError::BadStrategy(0)),
    (b"(repeat)", StratError::BadStrategy(0)),
    (b"(repeat a 1 2)", StratError::BadStrategy(0)),
    (b"(repeat a 4294967296)", StratError::BadStrategy(10)),
    (b"(repeat a 4294967296 1)", StratError::BadStrategy(10)),
    (b"(repeat a b)", StratError::BadStrategy(0)),
    (b"(using-params a)", StratError::BadStrategy(0)),
    (
        b"(using-params a :lia2pb_max_bits)",
        StratError::BadStrategy(0),
    ),
    (
        b"(using-params a :lia2pb_max_bits 65)",
        StratError::BadStrategy(33),
    ),
    (
        b"(using-params a :lia2pb_max_bits 0)",
        StratError::BadStrategy(33),
    ),
    (
        b"(using-params a :max_bits 5)",
        StratError::UnknownParam(16),
    ),
    (
        b"(using-params a lia2pb_max_bits 5)",
        StratError::BadStrategy(0),
    ),
    (
        b"(using-params a :add_bound_lower (- 170141183460469231731687303715884105728))",
        StratError::BadStrategy(33),
    ),
    (
        b"(using-params a :add_bound_upper 170141183460469231731687303715884105728)",
        StratError::BadStrategy(33),
    ),
    (
        b"(using-params a :drop_wide_max 1048577)",
        StratError::BadStrategy(31),
    ),
    (
        b"(using-params a :drop_wide_max (- 1))",
        StratError::BadStrategy(31),
    ),
    (
        b"(using-params a :x 1 :lia2pb_max_bits 65)",
        StratError::UnknownParam(16),
    ),
    (b"(using-params a b 1 :x 2)", StratError::UnknownParam(20)),
    (
        b"(using-params a :lia2pb_max_bits b)",
        StratError::BadStrategy(0),
    ),
    (b"(par-then)", StratError::BadStrategy(0)),
    (b"(if)", StratError::BadStrategy(0)),
    (b"(when)", StratError::BadStrategy(0)),
    (b"(try-for)", StratError::BadStrategy(0)),
    (b"(try-for a)", StratError::BadStrategy(0)),
    (b"(try-for a 1 2)", StratError::BadStrategy(0)),
    (
        b"(try-for a 4611686018427387905)",
        StratError::BadStrategy(11),
    ),
    (b"(try-for a (- 5))", StratError::BadStrategy(0)),
    (b"(foo a b)", StratError::BadStrategy(0)),
    (b"()", StratError::BadStrategy(0)),
    (b"((then a b) c)", StratError::BadStrategy(0)),
    (b"|a|", StratError::BadStrategy(0)),
    (b"(then |a| b)", StratError::BadStrategy(6)),
    (b"(|then| a b)", StratError::BadStrategy(0)),
    (b"5", StratError::BadStrategy(0)),
    (b"(then a \"b\")", StratError::BadStrategy(8)),
    (b"(then a (< size 3))", StratError::BadStrategy(8)),
    (b"(- 5)", StratError::BadStrategy(0)),
    (b"(then a b (then c))", StratError::BadStrategy(10)),
    (b"(par-or a |b|)", StratError::BadStrategy(10)),
    (b"(fail-if foo)", StratError::UnknownProbe(9)),
    (b"(if foo |a| b)", StratError::UnknownProbe(4)),
    (b"(fail-if :size)", StratError::BadStrategy(9)),
    (b"(fail-if |size|)", StratError::BadStrategy(9)),
    (b"(fail-if (< size))", StratError::BadStrategy(9)),
    (b"(fail-if (< size 3 4))", StratError::BadStrategy(9)),
    (b"(fail-if (not))", StratError::BadStrategy(9)),
    (b"(fail-if (or))", StratError::BadStrategy(9)),
    (b"(fail-if (not size depth))", StratError::BadStrategy(9)),
    (b"(fail-if (and))", StratError::BadStrategy(9)),
    (b"(fail-if (- size))", StratError::BadStrategy(9)),
    (b"(fail-if (- 5 6))", StratError::BadStrategy(9)),
    (
        b"(fail-if 170141183460469231731687303715884105728)",
        StratError::BadStrategy(9),
    ),
    (
        b"(fail-if (- 170141183460469231731687303715884105729))",
        StratError::BadStrategy(9),
    ),
    (
        b"(fail-if 340282366920938463463374607431768211456)",
        StratError::BadStrategy(9),
    ),
    (b"(fail-if (then a b))", StratError::BadStrategy(9)),
    (b"(fail-if 1.50)", StratError::BadStrategy(9)),
    (b"(fail-if (< foo bar))", StratError::UnknownProbe(12)),
];

/// A text and its first fault, where `skip` and `sat` are the names.
const UNNAMED: [(&[u8], StratError); 7] = [
    (b"(then skip foo)", StratError::UnknownReducer(11)),
    (b"(then foo |a|)", StratError::UnknownReducer(6)),
    (b"(then |a| foo)", StratError::BadStrategy(6)),
    (b"(repeat foo 4294967296)", StratError::UnknownReducer(8)),
    (b"foo", StratError::UnknownReducer(0)),
    (b"(foo skip)", StratError::BadStrategy(0)),
    (b"(par-then sat Sat)", StratError::UnknownReducer(14)),
];

#[test]
fn refuses_at_a_place(rt: HostRuntime) -> Result<(), Fail> {
    let alloc = rt.alloc();
    for (text, fault) in REFUSED.iter() {
        assert!(rt; is_refused(read(alloc, *text, None), *fault));
    }
    let skip = ReducerName::new(alloc, b"skip")?;
    let sat = ReducerName::new(alloc, b"sat")?;
    let names = vec![in alloc; skip, sat]?;
    for (text, fault) in UNNAMED.iter() {
        assert!(rt; is_refused(read(alloc, *text, Some(names.as_slice())), *fault));
    }
    let known = read(alloc, b"(then skip sat)", Some(names.as_slice()))?;
    assert_eq!(rt; outline(&known), (b'T', 2));
    Ok(())
}

/// A text that is repeated on both sides of another, between a front and a back.
struct Repeated {
    front: &'static [u8],
    left: &'static [u8],
    inner: &'static [u8],
    right: &'static [u8],
    back: &'static [u8],
    times: usize,
}

/// Puts a text so many times behind another.
fn repeat(text: &mut Vec<u8>, part: &[u8], times: usize) -> Result<(), AllocError> {
    for _ in 0..times {
        text.extend_from_slice(part)?;
    }
    Ok(())
}

/// The bytes of a repeated text.
fn bytes(alloc: Global, of: &Repeated) -> Result<Vec<u8>, AllocError> {
    let mut text = Vec::from_slice(alloc, of.front)?;
    repeat(&mut text, of.left, of.times)?;
    text.extend_from_slice(of.inner)?;
    repeat(&mut text, of.right, of.times)?;
    text.extend_from_slice(of.back)?;
    Ok(text)
}

/// What a repeated text is read as.
fn read_repeated(alloc: Global, of: &Repeated) -> Result<(u8, u64), StratError> {
    let text = bytes(alloc, of)?;
    let strategy = read(alloc, text.as_slice(), None)?;
    Ok(outline(&strategy))
}

/// Texts with many levels or branches, and what they are read as. The fault of the 65th level is told at the second part of the
/// 64th, since this one stands before the next.
const REPEATED: [(Repeated, Result<(u8, u64), StratError>); 5] = [
    (
        Repeated {
            front: b"",
            left: b"(par-then a ",
            inner: b"b",
            right: b")",
            back: b"",
            times: 63,
        },
        Ok((b'Q', 2)),
    ),
    (
        Repeated {
            front: b"",
            left: b"(par-then a ",
            inner: b"b",
            right: b")",
            back: b"",
            times: 64,
        },
        Err(StratError::BadStrategy(766)),
    ),
    (
        Repeated {
            front: b"(fail-if ",
            left: b"(not ",
            inner: b"size",
            right: b")",
            back: b")",
            times: 100,
        },
        Ok((b'F', 1)),
    ),
    (
        Repeated {
            front: b"(par-or ",
            left: b"a ",
            inner: b"",
            right: b"",
            back: b")",
            times: 64,
        },
        Ok((b'P', 64)),
    ),
    (
        Repeated {
            front: b"(par-or ",
            left: b"a ",
            inner: b"",
            right: b"",
            back: b")",
            times: 65,
        },
        Err(StratError::BadStrategy(0)),
    ),
];

#[test]
fn counts_levels_and_branches(rt: HostRuntime) -> Result<(), Fail> {
    let alloc = rt.alloc();
    for (text, want) in REPEATED.iter() {
        assert!(rt; read_repeated(alloc, text) == *want);
    }
    Ok(())
}

/// The written spelling of a text that is read.
fn spelling(text: &'static [u8]) -> &'static [u8] {
    if text == b"(fail-if (- 0))".as_slice() {
        b"(fail-if 0)"
    } else if text == b"(repeat a)".as_slice() {
        b"(repeat a 1000)"
    } else if text == b" ; a comment\n( then  a\tb )".as_slice() {
        b"(then a b)"
    } else {
        text
    }
}

/// The text of a strategy, if it has one.
fn written(alloc: Global, strategy: &Strategy) -> Result<Vec<u8>, StratError> {
    if !is_allowed(strategy) {
        return Err(StratError::BadStrategy(0));
    }
    let text = write_strategy(alloc, strategy)?;
    Ok(text)
}

/// What a copy of the strategy of a text is written as.
fn rewritten(alloc: Global, text: &[u8]) -> Result<Vec<u8>, StratError> {
    let strategy = read(alloc, text, None)?;
    let copied = strategy.copy(alloc)?;
    written(alloc, &copied)
}

/// Whether a text was written.
fn is_text(found: Result<Vec<u8>, StratError>, wanted: &[u8]) -> bool {
    match found {
        Ok(text) => text.as_slice() == wanted,
        Err(_) => false,
    }
}

#[test]
fn writes_what_is_read(rt: HostRuntime) -> Result<(), Fail> {
    let alloc = rt.alloc();
    for (text, _, _) in READ.iter() {
        assert!(rt; is_text(rewritten(alloc, *text), spelling(*text)));
    }
    Ok(())
}
