//! Functions over arguments: the terms that they come to, and their faults.

use crate::faults::is_told;
use crate::scripts::last_text;
use smt_words::What;
use std::test::Fail;

/// What stands behind the four declarations, and the text of the last term that it has.
const TERMS: [(&[u8], &[u8]); 18] = [
    (
        b"(define-fun f ((a Int)) Int (+ a a))(assert (= (f x) 6))",
        b"(= (+ x x) 6)",
    ),
    (
        b"(define-fun f ((a Int)) Int (+ a a))(get-value ((f 3)))",
        b"6",
    ),
    (
        b"(define-fun f ((a Int)) Int (* 2 a))(get-value ((* (f 3) x)))",
        b"(* 6 x)",
    ),
    (
        b"(define-fun f ((a Int)) Int (* a 2))(get-value ((f y)))",
        b"(* 2 y)",
    ),
    (
        b"(define-fun f ((a Bool)) Bool (not a))(assert (f p))",
        b"(not p)",
    ),
    (
        b"(define-fun f ((a Int) (b Bool)) Int (ite b a 1))(get-value ((f x q)))",
        b"(ite q x 1)",
    ),
    (b"(define-fun f ((a Int)) Int 7)(get-value ((f x)))", b"7"),
    // Parameters shadow all other names, and are none of them
    (
        b"(define-fun f ((x Int)) Int (+ x y))(get-value ((f 1)))",
        b"(+ 1 y)",
    ),
    (
        b"(define-fun f ((x Int) (y Int)) Bool (<= x y))(assert (f y x))",
        b"(<= y x)",
    ),
    (
        b"(define-fun g () Int x)(define-fun f ((x Int)) Int (+ x g))(get-value ((f 1)))",
        b"(+ 1 x)",
    ),
    (
        b"(define-fun f ((x Int) (x! Int)) Bool (<= x x!))(assert (f 1 y))",
        b"(<= 1 y)",
    ),
    (
        b"(define-fun f ((true Bool)) Bool (not true))(assert (f p))",
        b"(not p)",
    ),
    (
        b"(define-fun f ((f Int)) Int (+ f 1))(get-value ((f x)))",
        b"(+ x 1)",
    ),
    (
        b"(define-fun f ((a Int)) Int (let ((b a) (a 1)) (+ a b)))(get-value ((f x)))",
        b"(+ 1 x)",
    ),
    (
        b"(define-fun |f| ((|a b| Int)) Int |a b|)(get-value ((|f| x)))",
        b"x",
    ),
    // Functions in bodies, arguments and names
    (
        b"(define-fun f ((a Int)) Int (+ a 1))(define-fun g ((a Int)) Int (* 2 (f a)))(get-value ((g x)))",
        b"(* 2 (+ x 1))",
    ),
    (
        b"(define-fun f ((a Int)) Int (* 2 a))(get-value ((f (f x))))",
        b"(* 2 (* 2 x))",
    ),
    (
        b"(define-fun f ((a Bool)) Bool (not a))(assert (f (! p :named b)))(assert b)",
        b"p",
    ),
];

#[test]
fn functions_over_arguments(rt: HostRuntime) -> Result<(), Fail> {
    let alloc = rt.alloc();
    for (text, want) in TERMS {
        assert_eq!(rt; last_text(alloc, text)?.as_slice(), want);
    }
    Ok(())
}

/// Faults of definitions with parameters: what stands before the place, what stands from there on, and the fault.
const DEFINITIONS: [(&[u8], &[u8], What); 20] = [
    (b"", b"(define-fun f a Int 1)", What::BadShape),
    (b"(define-fun f ", b"(a) Int 1)", What::BadShape),
    (b"(define-fun f (", b"()) Int 1)", What::BadShape),
    (b"(define-fun f (", b"(a)) Int 1)", What::BadShape),
    (b"(define-fun f (", b"(a Int 1)) Int 1)", What::BadShape),
    (b"(define-fun f (", b"(\"a\" Int)) Int 1)", What::BadShape),
    (b"(define-fun f (", b"(|a\nb| Int)) Int 1)", What::BadShape),
    (b"(define-fun f (", b"(a 5)) Int 1)", What::BadShape),
    (b"(define-fun f ((a ", b"Real)) Int 1)", What::UnknownSymbol),
    (
        b"(define-fun f ((a Int) (",
        b"a Bool)) Int 1)",
        What::Redeclared,
    ),
    (b"(define-fun ", b"x ((a Int)) Int a)", What::Redeclared),
    (
        b"(define-fun f ((a Int)) Int a)(declare-const ",
        b"f Int)",
        What::Redeclared,
    ),
    (
        b"(define-fun f ((a Int)) Int (",
        b"f a))",
        What::UnknownSymbol,
    ),
    (b"(define-fun f ((x Int)) Int ", b"x!)", What::UnknownSymbol),
    (b"(define-fun f ((a Int)) Bool ", b"a)", What::BadSort),
    (b"", b"(define-fun f ((a Int)) Int a a)", What::BadShape),
    (
        b"(define-fun f ((a Int) (b Int)) Int ",
        b"(* a b))",
        What::NotLinear,
    ),
    (
        b"(define-fun f ((a Int)) Int ",
        b"(! a :named b))",
        What::BadShape,
    ),
    (
        b"(define-fun f ((a Int)) Int (+ a ",
        b"(! 2 :named b)))",
        What::BadShape,
    ),
    (
        b"(define-fun f ((a Int)) Int a)(assert (= x ",
        b"a))",
        What::UnknownSymbol,
    ),
];

#[test]
fn faults_of_definitions(rt: HostRuntime) -> Result<(), Fail> {
    let alloc = rt.alloc();
    for (before, from, what) in DEFINITIONS {
        assert!(rt; is_told(alloc, before, from, what)?);
    }
    Ok(())
}

/// The same, of functions over arguments.
const CALLS: [(&[u8], &[u8], What); 9] = [
    (
        b"(define-fun f ((a Int)) Int a)(assert (= x ",
        b"(f)))",
        What::BadShape,
    ),
    (
        b"(define-fun f ((a Int)) Int a)(assert (= x ",
        b"(f x p)))",
        What::BadShape,
    ),
    (
        b"(define-fun f ((a Int)) Int a)(assert (= x ",
        b"(f 1.5)))",
        What::BadShape,
    ),
    (
        b"(define-fun f ((a Int) (b Int)) Int a)(assert (= x (f y ",
        b"p)))",
        What::BadSort,
    ),
    (
        b"(define-fun f ((a Int)) Int a)(assert (= x (f ",
        b"r p)))",
        What::UnknownSymbol,
    ),
    (
        b"(define-fun f ((a Int)) Int a)(assert (= x ",
        b"f))",
        What::UnknownSymbol,
    ),
    (
        b"(define-fun f ((a Int)) Int a)(assert (let ((f p)) ",
        b"(f x)))",
        What::BadShape,
    ),
    (
        b"(define-fun f ((a Int)) Int (* 2 a))(assert (= x ",
        b"(f 170141183460469231731687303715884105727)))",
        What::WideNumeral,
    ),
    (
        b"(push)(define-fun f ((a Int)) Int a)(pop)(assert (= x (",
        b"f x)))",
        What::UnknownSymbol,
    ),
];

#[test]
fn faults_of_calls(rt: HostRuntime) -> Result<(), Fail> {
    let alloc = rt.alloc();
    for (before, from, what) in CALLS {
        assert!(rt; is_told(alloc, before, from, what)?);
    }
    Ok(())
}
