//! Scripts with what their checks, and each `apply`, answer.

use crate::setup::{Row, answer};
use std::test::Fail;

const TWO_NAMES: &str = "(declare-const p Bool)(declare-const q Bool)\n";

const FOUR: &str =
    "(assert (or p q))(assert (or p (not q)))(assert (or (not p) q))(assert (or (not p) (not q)))";

/// Checks of clauses over two names.
const CHECKS: [Row; 12] = [
    ("", 0, 0, ""),
    (
        "(assert (or p q))(assert (not p))(check-sat-using sat)(get-model)",
        0,
        1,
        "sat\n(\n  (define-fun p () Bool false)\n  (define-fun q () Bool true)\n)\n",
    ),
    (
        "(assert (or p q))(assert (not p))(assert (not q))(check-sat-using sat)",
        0,
        1,
        "unsat\n",
    ),
    (
        "; a comment (\n(assert p) ; another\r(check-sat-using sat)(exit))) rubbish",
        0,
        1,
        "sat\n",
    ),
    (
        "(assert p)(check-sat-using sat)(assert (not p))(check-sat-using sat)(check-sat-using sat)",
        0,
        3,
        "sat\nunsat\nunsat\n",
    ),
    (
        "(assert p)(assert (not p))(check-sat-using (or-else fail (then skip sat)))",
        0,
        1,
        "unsat\n",
    ),
    (
        "(check-sat-using fail)(get-info :reason-unknown)",
        0,
        1,
        "unknown\n(:reason-unknown (failed told))\n",
    ),
    (
        "(assert p)(check-sat-using skip)(get-info :reason-unknown)",
        0,
        1,
        "unknown\n(:reason-unknown incomplete)\n",
    ),
    (
        "(assert p)(assert (or (not p) q))(assert (not q))(check-sat-using (try-for sat 0))",
        0,
        1,
        "unsat\n",
    ),
    (
        "(assert p)(check-sat-using (par-or fail (then simplify sat)))(get-model)",
        0,
        1,
        "sat\n(\n  (define-fun p () Bool true)\n  (define-fun q () Bool false)\n)\n",
    ),
    (
        "(assert (or p q))(apply (if (= size 1) simplify fail))",
        0,
        1,
        "(goals\n(goal precise\n  (or p q)\n)\n)\n",
    ),
    (
        "(assert (or p q))(apply (fail-if (>= num-consts 2)))",
        0,
        1,
        "(failed told)\n",
    ),
];

/// Checks of the four clauses over two names, which have no model.
const FOUR_CLAUSES: [Row; 2] = [
    (
        "(check-sat-using (try-for sat 0))(get-info :reason-unknown)",
        0,
        1,
        "unknown\n(:reason-unknown (failed (spent 1)))\n",
    ),
    (
        "(check-sat-using (or-else (try-for sat 0) sat))",
        0,
        1,
        "unsat\n",
    ),
];

/// Scripts over an integer.
const NUMBERS: [Row; 8] = [
    (
        "(assert (< (* 2 x) 5))(apply simplify)",
        0,
        1,
        "(goals\n(goal precise\n  (<= x 2)\n)\n)\n",
    ),
    (
        "(assert (= (* 3 x) 4))(apply simplify)",
        0,
        1,
        "(goals\n(goal precise\n  false\n)\n)\n",
    ),
    (
        "(assert (<= 0 x))(assert (<= x 24))(apply (then simplify (if (= max-bits 5) skip fail)))",
        0,
        1,
        "(goals\n(goal precise\n  (<= (- x) 0)\n  (<= x 24)\n)\n)\n",
    ),
    (
        "(assert (<= 0 x))(assert (<= x 24))(apply (repeat simplify 0))",
        0,
        1,
        "(goals\n(goal precise\n  (<= 0 x)\n  (<= x 24)\n)\n)\n",
    ),
    (
        "(declare-const p Bool)(assert (=> p (<= x 2)))(check-sat-using (then simplify sat))(get-info :reason-unknown)",
        0,
        1,
        "unknown\n(:reason-unknown (failed (not-clausal 1)))\n",
    ),
    (
        "(check-sat-using skip)(get-model)(get-value (x (+ x 5) (<= x 0)))",
        0,
        1,
        "sat\n(\n  (define-fun x () Int 0)\n)\n((x 0) ((+ x 5) 5) ((<= x 0) true))\n",
    ),
    (
        "(assert (<= 3 x))(assert (<= x 10))(apply normalize-bounds)",
        0,
        1,
        "(goals\n(goal precise\n  (<= (- x!0) 0)\n  (<= x!0 7)\n)\n)\n",
    ),
    (
        "(define-fun f ((y Int)) Int (+ y y))(check-sat-using skip)(get-value ((f x)))",
        0,
        1,
        "sat\n(((f x) 0))\n",
    ),
];

/// Levels and their ends.
const LEVELS: [Row; 5] = [
    (
        "(push 1)(assert false)(check-sat-using sat)(pop 1)(check-sat-using sat)",
        0,
        2,
        "unsat\nsat\n",
    ),
    (
        "(declare-const p Bool)(assert p)(push)(assert (not p))(check-sat-using sat)(pop)(check-sat-using sat)",
        0,
        2,
        "unsat\nsat\n",
    ),
    (
        "(push 1)(declare-const r Bool)(assert r)(check-sat-using sat)(get-model)(pop 1)(declare-const r Int)(check-sat-using sat)(get-model)",
        0,
        2,
        "sat\n(\n  (define-fun r () Bool true)\n)\nsat\n(\n  (define-fun r () Int 0)\n)\n",
    ),
    (
        "(declare-const p Bool)(push 2)(assert p)(assert (not p))(reset-assertions)(declare-const p Int)(check-sat-using sat)(get-model)",
        0,
        1,
        "sat\n(\n  (define-fun p () Int 0)\n)\n",
    ),
    ("(push 65536)", 0, 0, ""),
];

#[test]
fn scripts_answer(rt: HostRuntime) -> Result<(), Fail> {
    let alloc = rt.alloc();
    answer(&rt, alloc, TWO_NAMES, &CHECKS)?;
    answer(&rt, alloc, "(declare-const x Int)", &NUMBERS)?;
    answer(&rt, alloc, "", &LEVELS)?;
    let mut four = String::from_str(alloc, TWO_NAMES)?;
    four.push_str(FOUR)?;
    answer(&rt, alloc, &four, &FOUR_CLAUSES)?;
    Ok(())
}
