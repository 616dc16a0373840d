//! Faults of scripts, each at its place.

use crate::scripts::{NAMES, joined};
use qterm::Store;
use sexp_read::line_column;
use smt_command::commands;
use smt_words::{ScriptError, What};
use std::alloc::{AllocError, Global};
use std::test::Fail;
use strat_text::ReducerName;

/// The first fault of a script whose strategies may name `sat` and `simplify`.
fn fault_of(alloc: Global, bytes: &[u8]) -> Result<Option<ScriptError>, AllocError> {
    let sat = ReducerName::new(alloc, b"sat")?;
    let simplify = ReducerName::new(alloc, b"simplify")?;
    let mut store = Store::new(alloc);
    let script = commands(alloc, bytes, &mut store, Some(&[sat, simplify]))?;
    Ok(script.fault)
}

/// Whether the two texts behind the four declarations, one behind the other, have this fault where the second begins.
pub(crate) fn is_told(
    alloc: Global,
    before: &[u8],
    from: &[u8],
    what: What,
) -> Result<bool, AllocError> {
    let front = joined(alloc, &[NAMES, before])?;
    let bytes = joined(alloc, &[front.as_slice(), from])?;
    let place = front.len();
    Ok(fault_of(alloc, bytes.as_slice())? == Some(ScriptError { what, place }))
}

/// Faults of texts, words, symbols and numbers: what stands before the place, what stands from there on, and the fault.
const TEXTS: [(&[u8], &[u8], What); 68] = [
    (b"", b")", What::Lexical),
    (b"(check-sat)", b")", What::Lexical),
    (b"(assert (<= x ", b"007))", What::Lexical),
    (b"(assert (foo ", b"a:b))", What::Lexical),
    (b"(echo ", b"\"abc)", What::Lexical),
    (b"(assert ", b"|p)", What::Lexical),
    (b"(assert ", b"'p)", What::Lexical),
    (b"", b"(assert (and p q)", What::Unclosed),
    (b"(check-sat)\n", b"(assert (<= x", What::Unclosed),
    (b"(assert p) ", b"(foo (bar", What::Unclosed),
    (b"(", b"foo)", What::UnknownCommand),
    (b"(", b"foo zz)", What::UnknownCommand),
    (b"(", b"reset)", What::UnknownCommand),
    (b"(", b"check-sat-assuming (p))", What::UnknownCommand),
    (b"(", b"declare-sort U 0)", What::UnknownCommand),
    (b"(", b"get-option :verbosity)", What::UnknownCommand),
    (b"(", b"get-assertions)", What::UnknownCommand),
    (b"(", b"Assert p)", What::UnknownCommand),
    (b"(", b"|foo| p)", What::UnknownCommand),
    (b"", b"exit", What::UnknownCommand),
    (b"", b"\"exit\"", What::UnknownCommand),
    (b"", b"5", What::UnknownCommand),
    (b"", b"()", What::UnknownCommand),
    (b"", b"((assert) p)", What::UnknownCommand),
    (b"", b"(5)", What::UnknownCommand),
    (b"(assert ", b"r)", What::UnknownSymbol),
    (b"(assert ", b"and)", What::UnknownSymbol),
    (b"(assert (", b"foo x))", What::UnknownSymbol),
    (b"(assert (", b"|foo| x))", What::UnknownSymbol),
    (b"(assert (", b"foo zz 1.5))", What::UnknownSymbol),
    (b"(assert (= (", b"div x 2) 1))", What::UnknownSymbol),
    (b"(assert (= (", b"mod x 2) 1))", What::UnknownSymbol),
    (b"(assert (= (", b"abs x) 1))", What::UnknownSymbol),
    (b"(assert (not p ", b"r))", What::UnknownSymbol),
    (b"(assert (and x 1.5 ", b"r))", What::UnknownSymbol),
    (b"(assert ", b"r q)", What::UnknownSymbol),
    (b"(assert (let ((a p) (b ", b"a)) b))", What::UnknownSymbol),
    (
        b"(assert (and (let ((a p)) a) ",
        b"a))",
        What::UnknownSymbol,
    ),
    (b"(assert (and ", b"a (! p :named a)))", What::UnknownSymbol),
    (b"(assert (! (and p ", b"a) :named a))", What::UnknownSymbol),
    (b"(get-value (x ", b"r))", What::UnknownSymbol),
    (b"(declare-const z ", b"Real)", What::UnknownSymbol),
    (b"(declare-fun z () ", b"U)", What::UnknownSymbol),
    (b"(define-fun z () ", b"Real 1)", What::UnknownSymbol),
    (b"(define-fun z () Int ", b"z)", What::UnknownSymbol),
    (b"(declare-const ", b"x Int)", What::Redeclared),
    (b"(declare-const ", b"|x| Bool)", What::Redeclared),
    (b"(declare-fun ", b"p () Bool)", What::Redeclared),
    (b"(define-fun ", b"x () Int 1)", What::Redeclared),
    (b"(declare-const ", b"true Bool)", What::Redeclared),
    (b"(declare-const ", b"and Bool)", What::Redeclared),
    (b"(declare-const ", b"|<=| Int)", What::Redeclared),
    (b"(define-fun ", b"* () Int 1)", What::Redeclared),
    (b"(assert (let ((a p) (", b"a q)) a))", What::Redeclared),
    (b"(assert (! p :named ", b"x))", What::Redeclared),
    (b"(assert (! p :named ", b"not))", What::Redeclared),
    (
        b"(assert (and (! p :named a) (! q :named ",
        b"a)))",
        What::Redeclared,
    ),
    (
        b"(assert (! p :named a))(declare-const ",
        b"a Int)",
        What::Redeclared,
    ),
    (
        b"(define-fun z () Int 1)(define-fun ",
        b"z () Int 1)",
        What::Redeclared,
    ),
    (b"(set-logic ", b"QF_BV)", What::BadLogic),
    (b"(set-logic ", b"QF_LRA)", What::BadLogic),
    (b"(set-logic ", b"all)", What::BadLogic),
    (
        b"(assert (= x ",
        b"170141183460469231731687303715884105728))",
        What::WideNumeral,
    ),
    (
        b"(assert (= x (- ",
        b"170141183460469231731687303715884105728)))",
        What::WideNumeral,
    ),
    (
        b"(assert (and (= x ",
        b"340282366920938463463374607431768211456) r))",
        What::WideNumeral,
    ),
    (
        b"(assert (= x (+ y ",
        b"170141183460469231731687303715884105728)))",
        What::WideNumeral,
    ),
    (
        b"(get-value (",
        b"170141183460469231731687303715884105728))",
        What::WideNumeral,
    ),
    (
        b"(assert (= x ",
        b"(* 2 170141183460469231731687303715884105727)))",
        What::WideNumeral,
    ),
];

#[test]
fn faults_of_texts_and_symbols(rt: HostRuntime) -> Result<(), Fail> {
    let alloc = rt.alloc();
    for (before, from, what) in TEXTS {
        assert!(rt; is_told(alloc, before, from, what)?);
    }
    Ok(())
}

/// Faults of commands with other arguments, in the same form.
const ARGUMENTS: [(&[u8], &[u8], What); 52] = [
    // A command with other arguments
    (b"", b"(check-sat 1)", What::BadShape),
    (b"", b"(get-model x)", What::BadShape),
    (b"", b"(get-proof 1)", What::BadShape),
    (b"", b"(reset-assertions 1)", What::BadShape),
    (b"", b"(exit 0)", What::BadShape),
    (b"", b"(assert)", What::BadShape),
    (b"", b"(assert p q)", What::BadShape),
    (b"", b"(assert \"p\")", What::BadShape),
    (b"", b"(assert 1.5)", What::BadShape),
    (b"", b"(assert #b1)", What::BadShape),
    (b"", b"(declare-const)", What::BadShape),
    (b"", b"(declare-const z)", What::BadShape),
    (b"", b"(declare-const z Int Int)", What::BadShape),
    (b"", b"(declare-const 5 Int)", What::BadShape),
    (b"", b"(declare-const z 5)", What::BadShape),
    (b"", b"(declare-const z (Int))", What::BadShape),
    (b"", b"(declare-const |a\nb| Int)", What::BadShape),
    (b"", b"(declare-const |a\tb| Int)", What::BadShape),
    (b"", b"(declare-const |a\rb| Int)", What::BadShape),
    (b"", b"(declare-fun z (Int) Int)", What::BadShape),
    (b"", b"(declare-fun z Int)", What::BadShape),
    (b"", b"(declare-fun z ())", What::BadShape),
    (b"", b"(define-fun z () Int)", What::BadShape),
    (b"", b"(define-fun z () Int 1 2)", What::BadShape),
    (b"", b"(define-fun |a\nb| () Int 1)", What::BadShape),
    (b"", b"(define-fun z () Int \"1\")", What::BadShape),
    (b"", b"(push -1)", What::BadShape),
    (b"", b"(push 1 2)", What::BadShape),
    (b"", b"(pop x)", What::BadShape),
    (b"", b"(get-value)", What::BadShape),
    (b"", b"(get-value x)", What::BadShape),
    (b"", b"(get-value ())", What::BadShape),
    (b"", b"(get-value (x) (y))", What::BadShape),
    (b"(get-value ", b"(\"x\"))", What::BadShape),
    (b"", b"(set-logic)", What::BadShape),
    (b"", b"(set-logic \"ALL\")", What::BadShape),
    (b"", b"(set-logic ALL ALL)", What::BadShape),
    (b"", b"(set-option)", What::BadShape),
    (b"", b"(set-option :print-success 1)", What::BadShape),
    (b"", b"(set-option :produce-models 1)", What::BadShape),
    (b"", b"(set-option :random-seed true)", What::BadShape),
    (b"", b"(set-option :verbosity x)", What::BadShape),
    (b"", b"(set-info)", What::BadShape),
    (b"", b"(set-info source x)", What::BadShape),
    (b"", b"(get-info)", What::BadShape),
    (b"", b"(get-info name)", What::BadShape),
    (b"", b"(echo)", What::BadShape),
    (b"", b"(echo a)", What::BadShape),
    (b"", b"(echo \"a\" \"b\")", What::BadShape),
    (b"", b"(check-sat-using)", What::BadShape),
    (b"", b"(check-sat-using sat sat)", What::BadShape),
    (b"", b"(apply)", What::BadShape),
];

#[test]
fn faults_of_arguments(rt: HostRuntime) -> Result<(), Fail> {
    let alloc = rt.alloc();
    for (before, from, what) in ARGUMENTS {
        assert!(rt; is_told(alloc, before, from, what)?);
    }
    Ok(())
}

/// The same, of terms, bindings and annotations of another shape.
const SHAPES: [(&[u8], &[u8], What); 33] = [
    // A term, a let, a binding, a list of bindings, an annotation
    (b"(assert ", b"(not p q))", What::BadShape),
    (b"(assert ", b"(not))", What::BadShape),
    (b"(assert ", b"(and))", What::BadShape),
    (b"(assert ", b"(=> p))", What::BadShape),
    (b"(assert ", b"(xor p))", What::BadShape),
    (b"(assert ", b"(= x))", What::BadShape),
    (b"(assert ", b"(< x))", What::BadShape),
    (b"(assert ", b"(distinct x))", What::BadShape),
    (b"(assert ", b"(ite p q))", What::BadShape),
    (b"(assert ", b"(ite p q p q))", What::BadShape),
    (b"(assert (= x ", b"(+)))", What::BadShape),
    (b"(assert (= x ", b"(-)))", What::BadShape),
    (b"(assert ", b"(and x 1.5))", What::BadShape),
    (b"(assert (or p ", b"(and p \"q\")))", What::BadShape),
    (b"(assert ", b"(let))", What::BadShape),
    (b"(assert ", b"(let () p))", What::BadShape),
    (b"(assert ", b"(let ((a p))))", What::BadShape),
    (b"(assert ", b"(let ((a p)) p q))", What::BadShape),
    (b"(assert ", b"(let p q))", What::BadShape),
    (b"(assert (let ", b"(a) p))", What::BadShape),
    (b"(assert (let ", b"((a p) b) p))", What::BadShape),
    (b"(assert (let (", b"(a)) p))", What::BadShape),
    (b"(assert (let (", b"(a p q)) p))", What::BadShape),
    (b"(assert (let (", b"(5 p)) p))", What::BadShape),
    (b"(assert (let ((a p) ", b"(|b\nc| p)) p))", What::BadShape),
    (b"(assert (let (", b"(a \"p\")) p))", What::BadShape),
    (b"(assert ", b"(!))", What::BadShape),
    (b"(assert ", b"(! p))", What::BadShape),
    (b"(assert ", b"(! p :named))", What::BadShape),
    (b"(assert ", b"(! p :named 5))", What::BadShape),
    (b"(assert ", b"(! p :named |a\nb|))", What::BadShape),
    (b"(assert ", b"(! p a))", What::BadShape),
    (b"(assert ", b"(! p :weight 1 2))", What::BadShape),
];

#[test]
fn faults_of_shapes(rt: HostRuntime) -> Result<(), Fail> {
    let alloc = rt.alloc();
    for (before, from, what) in SHAPES {
        assert!(rt; is_told(alloc, before, from, what)?);
    }
    Ok(())
}

/// The same, of sorts, numbers, levels and strategies.
const SORTS: [(&[u8], &[u8], What); 36] = [
    // Sorts
    (b"(assert ", b"x)", What::BadSort),
    (b"(assert ", b"(+ x 1))", What::BadSort),
    (b"(assert (not ", b"x))", What::BadSort),
    (b"(assert (and p ", b"x y))", What::BadSort),
    (b"(assert (and p ", b"(let ((a x)) a)))", What::BadSort),
    (b"(assert (<= x ", b"p))", What::BadSort),
    (b"(assert (= x ", b"p))", What::BadSort),
    (b"(assert (= p q ", b"x))", What::BadSort),
    (b"(assert (distinct x ", b"p))", What::BadSort),
    (b"(assert (=> p q ", b"7))", What::BadSort),
    (b"(assert (ite ", b"x p q))", What::BadSort),
    (b"(assert (ite p x ", b"q))", What::BadSort),
    (b"(assert (= (- ", b"p) 1))", What::BadSort),
    (b"(assert (= (* x y ", b"p) 1))", What::BadSort),
    (b"(define-fun z () Int ", b"p)", What::BadSort),
    // Products and numbers
    (b"(assert (= ", b"(* x y) 1))", What::NotLinear),
    (
        b"(assert (= (+ x ",
        b"(* 2 x (+ y 1))) 1))",
        What::NotLinear,
    ),
    (b"(assert (= ", b"(* x (ite true 1 2)) 1))", What::NotLinear),
    (
        b"(assert (= ",
        b"(* 170141183460469231731687303715884105727 2 x y) 1))",
        What::NotLinear,
    ),
    (
        b"(assert (= x ",
        b"(+ 170141183460469231731687303715884105727 1 (- 1))))",
        What::WideNumeral,
    ),
    (
        b"(assert (= x ",
        b"(* 170141183460469231731687303715884105727 2 0)))",
        What::WideNumeral,
    ),
    (
        b"(assert (= x ",
        b"(- (- 170141183460469231731687303715884105727) 2)))",
        What::WideNumeral,
    ),
    (
        b"(assert (= x ",
        b"(- (- (- 170141183460469231731687303715884105727) 1))))",
        What::WideNumeral,
    ),
    // Levels
    (b"", b"(push 65537)", What::PushTooMany),
    (b"(push 65535)(push 1)", b"(push)", What::PushTooMany),
    (
        b"",
        b"(push 340282366920938463463374607431768211456)",
        What::PushTooMany,
    ),
    (b"(push 2)(pop 1)", b"(pop 2)", What::PopTooMany),
    (b"(push 2)(reset-assertions)", b"(pop)", What::PopTooMany),
    (
        b"",
        b"(pop 340282366920938463463374607431768211456)",
        What::PopTooMany,
    ),
    // Strategies
    (b"(check-sat-using ", b"foo)", What::UnknownReducer),
    (b"(apply (then simplify ", b"foo))", What::UnknownReducer),
    (b"(apply (fail-if ", b"foo))", What::UnknownProbe),
    (
        b"(apply (using-params sat ",
        b":foo 1))",
        What::UnknownParam,
    ),
    (b"(check-sat-using ", b"(then sat))", What::BadStrategy),
    (b"(apply (repeat sat ", b"4294967296))", What::BadStrategy),
    (b"(apply ", b"|sat|)", What::BadStrategy),
];

#[test]
fn faults_of_sorts_and_levels(rt: HostRuntime) -> Result<(), Fail> {
    let alloc = rt.alloc();
    for (before, from, what) in SORTS {
        assert!(rt; is_told(alloc, before, from, what)?);
    }
    Ok(())
}

/// A command of one term: so many `not` round a term.
fn negations(
    alloc: Global,
    front: &[u8],
    count: usize,
    inner: &[u8],
) -> Result<Vec<u8>, AllocError> {
    let mut bytes = Vec::from_slice(alloc, front)?;
    for _ in 0..count {
        bytes.extend_from_slice(b"(not ")?;
    }
    bytes.extend_from_slice(inner)?;
    for _ in 0..count {
        bytes.push(b')')?;
    }
    bytes.push(b')')?;
    Ok(bytes)
}

/// A script, and the line and the column of its first fault.
const LINES: [(&[u8], usize, usize); 5] = [
    (
        b"(declare-const x Int)\n(assert (= x 170141183460469231731687303715884105728))",
        2,
        14,
    ),
    (b"(declare-const x Int)\n(check-sat)\n(assert (<= x", 3, 1),
    (b"; ( \xE9\r\n\n (assert true)\n\t(assert r)", 4, 10),
    (b"(echo \"a\nb\") |c\nd|", 2, 5),
    (b"(check-sat))", 1, 12),
];

#[test]
fn places_of_faults(rt: HostRuntime) -> Result<(), Fail> {
    let alloc = rt.alloc();
    for (script, line, column) in LINES {
        let fault = fault_of(alloc, script)?;
        assert!(rt; fault.is_some());
        if let Some(error) = fault {
            assert!(rt; error.place <= script.len());
            assert_eq!(rt; line_column(script, error.place), (line, column));
        }
    }
    let nested = negations(alloc, b"(assert ", 999, b"true")?;
    assert_eq!(rt; fault_of(alloc, nested.as_slice())?, None);
    let place = 8 + 5 * 999;
    let what = What::TooDeep;
    let deep = negations(alloc, b"(assert ", 1000, b"true")?;
    assert_eq!(rt;
        fault_of(alloc, deep.as_slice())?,
        Some(ScriptError { what, place })
    );
    Ok(())
}

/// A term of the depth 1,000 and one of the depth 1,001, both over a name that stands for one of the depth 901.
#[test]
fn depth_of_terms(rt: HostRuntime) -> Result<(), Fail> {
    let alloc = rt.alloc();
    let name = negations(alloc, b"(define-fun a () Bool ", 900, b"p")?;
    let assert = negations(alloc, b"(assert ", 99, b"a")?;
    let within = joined(alloc, &[NAMES, name.as_slice(), assert.as_slice()])?;
    assert_eq!(rt; fault_of(alloc, within.as_slice())?, None);
    let over = negations(alloc, b"(assert ", 100, b"a")?;
    assert!(rt; is_told(alloc, name.as_slice(), over.as_slice(), What::TooDeep)?);
    let define = negations(alloc, b"(define-fun b () Bool ", 100, b"a")?;
    assert!(rt; is_told(alloc, name.as_slice(), define.as_slice(), What::TooDeep)?);
    Ok(())
}
