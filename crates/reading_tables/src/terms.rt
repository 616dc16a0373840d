//! Terms as they are read: each with the text of its plain term.

use crate::scripts::last_text;
use std::test::Fail;

/// A command behind the four declarations, and the text of its plain term.
const SUMS: [(&[u8], &[u8]); 35] = [
    // Constants, names and numerals
    (b"(assert true)", b"true"),
    (b"(assert false)", b"false"),
    (b"(assert p)", b"p"),
    (b"(assert |p|)", b"p"),
    (b"(get-value (x))", b"x"),
    (b"(get-value (|x|))", b"x"),
    (b"(get-value (0))", b"0"),
    (
        b"(get-value (170141183460469231731687303715884105727))",
        b"170141183460469231731687303715884105727",
    ),
    // Sums, differences and products, with numbers folded
    (b"(get-value ((+ x y)))", b"(+ x y)"),
    (b"(get-value ((+ x 1 2)))", b"(+ x 1 2)"),
    (b"(get-value ((+ x (+ 1 2))))", b"(+ x 3)"),
    (b"(get-value ((+ 2 3)))", b"5"),
    (b"(get-value ((+ x)))", b"(+ x)"),
    (b"(get-value ((+ 5)))", b"5"),
    (b"(get-value ((- x)))", b"(- x)"),
    (b"(get-value ((- 5)))", b"(- 5)"),
    (b"(get-value ((- 0)))", b"0"),
    (b"(get-value ((- (- 5))))", b"5"),
    (b"(get-value ((- (- x))))", b"(- (- x))"),
    (b"(get-value ((- x y)))", b"(+ x (- y))"),
    (b"(get-value ((- x y 1)))", b"(+ x (- y) (- 1))"),
    (b"(get-value ((- 2 3 4)))", b"(- 5)"),
    (
        b"(get-value ((- (- 170141183460469231731687303715884105727) 1)))",
        b"(- 170141183460469231731687303715884105728)",
    ),
    (b"(get-value ((* 2 x)))", b"(* 2 x)"),
    (b"(get-value ((* x 2)))", b"(* 2 x)"),
    (b"(get-value ((* 2 3 x)))", b"(* 6 x)"),
    (b"(get-value ((* 2 x 3)))", b"(* 6 x)"),
    (b"(get-value ((* (- 1) x)))", b"(- x)"),
    (b"(get-value ((* (- 2) x)))", b"(* (- 2) x)"),
    (b"(get-value ((* (+ 1 1) (+ x y))))", b"(* 2 (+ x y))"),
    (b"(get-value ((* 2 (* 3 x))))", b"(* 2 (* 3 x))"),
    (b"(get-value ((* 2 3)))", b"6"),
    (b"(get-value ((* x)))", b"x"),
    (b"(get-value ((* 5)))", b"5"),
    (
        b"(get-value ((* 0 170141183460469231731687303715884105727 170141183460469231731687303715884105727)))",
        b"0",
    ),
];

#[test]
fn constants_and_sums(rt: HostRuntime) -> Result<(), Fail> {
    let alloc = rt.alloc();
    for (text, want) in SUMS {
        assert_eq!(rt; last_text(alloc, text)?.as_slice(), want);
    }
    Ok(())
}

/// The same, of atoms, chains and connectives.
const CHAINS: [(&[u8], &[u8]); 33] = [
    // Atoms and chains
    (b"(assert (<= x y))", b"(<= x y)"),
    (b"(assert (< x y))", b"(not (<= y x))"),
    (b"(assert (>= x y))", b"(<= y x)"),
    (b"(assert (> x y))", b"(not (<= x y))"),
    (b"(assert (= x 7))", b"(= x 7)"),
    (b"(assert (= p q))", b"(= p q)"),
    (b"(assert (<= 1 2))", b"(<= 1 2)"),
    (b"(assert (<= x y 7))", b"(and (<= x y) (<= y 7))"),
    (
        b"(assert (< x y 7))",
        b"(and (not (<= y x)) (not (<= 7 y)))",
    ),
    (b"(assert (>= x y 7))", b"(and (<= y x) (<= 7 y))"),
    (
        b"(assert (> x y 7))",
        b"(and (not (<= x y)) (not (<= y 7)))",
    ),
    (b"(assert (= x y 7 x))", b"(and (= x y) (= y 7) (= 7 x))"),
    (b"(assert (= p q p))", b"(and (= p q) (= q p))"),
    (b"(assert (distinct x y))", b"(and (not (= x y)))"),
    (b"(assert (distinct p q))", b"(and (not (= p q)))"),
    (
        b"(assert (distinct x y 7))",
        b"(and (not (= x y)) (not (= x 7)) (not (= y 7)))",
    ),
    // Connectives
    (b"(assert (not p))", b"(not p)"),
    (b"(assert (not (not p)))", b"(not (not p))"),
    (b"(assert (and p q))", b"(and p q)"),
    (b"(assert (and p true))", b"(and p true)"),
    (b"(assert (and p))", b"(and p)"),
    (b"(assert (or p q p))", b"(or p q p)"),
    (b"(assert (or p))", b"(or p)"),
    (b"(assert (=> p q))", b"(or (not p) q)"),
    (b"(assert (=> p q p))", b"(or (not p) (or (not q) p))"),
    (b"(assert (xor p q))", b"(not (= p q))"),
    (b"(assert (xor p q p))", b"(not (= (not (= p q)) p))"),
    (b"(assert (ite p q p))", b"(ite p q p)"),
    (b"(get-value ((ite p x 1)))", b"(ite p x 1)"),
    (b"(get-value ((ite true 2 3)))", b"(ite true 2 3)"),
    (
        b"(get-value ((+ 1 (ite true 2 3))))",
        b"(+ 1 (ite true 2 3))",
    ),
    (
        b"(get-value ((* 2 (ite true 3 4))))",
        b"(* 2 (ite true 3 4))",
    ),
    (b"(assert (|and| p q))", b"(and p q)"),
];

#[test]
fn chains_and_connectives(rt: HostRuntime) -> Result<(), Fail> {
    let alloc = rt.alloc();
    for (text, want) in CHAINS {
        assert_eq!(rt; last_text(alloc, text)?.as_slice(), want);
    }
    Ok(())
}

/// The same, of names that are bound, given, declared or defined.
const NAMED: [(&[u8], &[u8]); 21] = [
    // Names bound by let
    (b"(assert (let ((a p)) (and a a)))", b"(and p p)"),
    (b"(assert (let ((x y) (y x)) (<= x y)))", b"(<= y x)"),
    (
        b"(assert (let ((a 1)) (let ((a 2) (b a)) (<= a b))))",
        b"(<= 2 1)",
    ),
    (
        b"(assert (and (let ((a p)) a) (let ((a q)) a)))",
        b"(and p q)",
    ),
    (b"(assert (let ((true q)) (and true p)))", b"(and q p)"),
    (b"(assert (let ((- x)) (<= - 1)))", b"(<= x 1)"),
    (b"(get-value ((let ((a 2)) (* a x))))", b"(* 2 x)"),
    // Annotations
    (b"(assert (! p :named a))", b"p"),
    (b"(assert (and (! p :named a) a))", b"(and p p)"),
    (
        b"(assert (! p :weight 5 :note \"n\" :named a :bits #b01))(assert (or a q))",
        b"(or p q)",
    ),
    (b"(assert (! p :pattern (zz (1.5 ()))))", b"p"),
    (
        b"(assert (! p :named a :named b))(assert (= a b))",
        b"(= p p)",
    ),
    // Declared and defined names
    (b"(declare-fun z () Int)(get-value (z))", b"z"),
    (b"(declare-const |x y| Int)(get-value (|x y|))", b"|x y|"),
    (b"(declare-const let Int)(get-value (let))", b"|let|"),
    (b"(declare-const assert Bool)(assert assert)", b"|assert|"),
    (
        b"(declare-const div Int)(get-value ((+ div 1)))",
        b"(+ div 1)",
    ),
    (
        b"(define-fun f () Int (+ x 1))(assert (<= f 7))",
        b"(<= (+ x 1) 7)",
    ),
    (b"(define-fun n () Int 3)(get-value ((* n x)))", b"(* 3 x)"),
    // Strings
    (b"(echo \"a \"\" ; ) b\")", b"\"a \"\" ; ) b\""),
    (b"(echo \"\")", b"\"\""),
];

#[test]
fn names_and_strings(rt: HostRuntime) -> Result<(), Fail> {
    let alloc = rt.alloc();
    for (text, want) in NAMED {
        assert_eq!(rt; last_text(alloc, text)?.as_slice(), want);
    }
    Ok(())
}
