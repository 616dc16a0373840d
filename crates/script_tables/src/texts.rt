//! Scripts with the texts of what they ask for, and of their faults.

use crate::setup::{Row, answer};
use std::test::Fail;

/// What commands write that make no check.
const TOLD: [Row; 7] = [
    (
        "(set-option :print-success true)(check-sat-using skip)",
        0,
        1,
        "success\nsat\n",
    ),
    (
        "(set-option :foo 1)(check-sat-using skip)",
        0,
        1,
        "unsupported\nsat\n",
    ),
    (
        "(set-option :print-success true)(set-option :print-success false)(push 1)",
        0,
        0,
        "success\n",
    ),
    (
        "(set-logic QF_LIA)(set-option :print-success true)(declare-const p Bool)(assert p)(push 1)(pop 1)(set-info :status sat)(echo \"a \"\"b\"\"\")(exit)",
        0,
        0,
        "success\nsuccess\nsuccess\nsuccess\nsuccess\nsuccess\n\"a \"\"b\"\"\"\nsuccess\n",
    ),
    (
        "(get-info :name)(get-info :version)(get-info :error-behavior)(get-info :authors)",
        0,
        0,
        "(:name \"tacsmt\")\n(:version \"1\")\n(:error-behavior immediate-exit)\nunsupported\n",
    ),
    (
        "(check-sat-using sat)(echo \"a\")(set-info :status sat)(get-model)(get-model)",
        0,
        1,
        "sat\n\"a\"\n(\n)\n(\n)\n",
    ),
    (
        "(declare-const par Bool)(declare-const get-model Bool)(declare-const pars Bool)(assert par)(check-sat-using sat)(get-model)",
        0,
        1,
        "sat\n(\n  (define-fun |par| () Bool true)\n  (define-fun |get-model| () Bool false)\n  (define-fun pars () Bool false)\n)\n",
    ),
];

/// Nothing to show, each time in line 2.
const NOTHING: [Row; 8] = [
    (
        "\n(get-model)",
        1,
        0,
        "(error \"line 2 column 1: no answer to show\")\n",
    ),
    (
        "(check-sat-using sat)(declare-const p Bool)\n(get-model)",
        1,
        1,
        "sat\n(error \"line 2 column 1: no answer to show\")\n",
    ),
    (
        "(check-sat-using sat)(define-fun f () Int 3)\n(get-value (f))",
        1,
        1,
        "sat\n(error \"line 2 column 1: no answer to show\")\n",
    ),
    (
        "(check-sat-using sat)(push 1)\n (get-model)",
        1,
        1,
        "sat\n(error \"line 2 column 2: no answer to show\")\n",
    ),
    (
        "(assert false)(check-sat-using sat)\n(get-model)(check-sat-using sat)",
        1,
        1,
        "unsat\n(error \"line 2 column 1: no answer to show\")\n",
    ),
    (
        "(check-sat-using sat)\n(get-proof)",
        1,
        1,
        "sat\n(error \"line 2 column 1: no answer to show\")\n",
    ),
    (
        "(check-sat-using sat)\n(get-info :reason-unknown)",
        1,
        1,
        "sat\n(error \"line 2 column 1: no answer to show\")\n",
    ),
    (
        "(check-sat-using sat)(apply skip)\n(get-model)",
        1,
        2,
        "sat\n(goals\n(goal precise\n)\n)\n(error \"line 2 column 1: no answer to show\")\n",
    ),
];

/// The first fault of a script ends it.
const FAULTS: [Row; 15] = [
    (
        "(check-sat)",
        1,
        0,
        "(error \"line 1 column 1: unknown reducer\")\n",
    ),
    (
        "(check-sat-using solve-eqs)",
        1,
        0,
        "(error \"line 1 column 18: unknown reducer\")\n",
    ),
    (
        "(check-sat-using (then sat))",
        1,
        0,
        "(error \"line 1 column 18: bad strategy\")\n",
    ),
    (
        "(check-sat-using sat",
        1,
        0,
        "(error \"line 1 column 1: unclosed parenthesis\")\n",
    ),
    (
        "(declare-const x Int)\n(check-sat-using skip)\n(assert (<= x",
        1,
        1,
        "sat\n(error \"line 3 column 1: unclosed parenthesis\")\n",
    ),
    (
        "(frobnicate)",
        1,
        0,
        "(error \"line 1 column 2: unknown command\")\n",
    ),
    (
        "(declare-const p Bool)(declare-const p Int)",
        1,
        0,
        "(error \"line 1 column 38: name already declared\")\n",
    ),
    (
        "(declare-const p Bool)\n(assert q)",
        1,
        0,
        "(error \"line 2 column 9: unknown symbol\")\n",
    ),
    (
        "(declare-const x Int)\n(assert x)",
        1,
        0,
        "(error \"line 2 column 9: wrong sort\")\n",
    ),
    (
        "(declare-const x Int)\n(assert (= (* x x) 1))",
        1,
        0,
        "(error \"line 2 column 12: product is not linear\")\n",
    ),
    (
        "(declare-const x Int)\n(assert (= x 170141183460469231731687303715884105728))",
        1,
        0,
        "(error \"line 2 column 14: number past 128 bits\")\n",
    ),
    (
        "(declare-const x Int)(check-sat-using skip)\n(get-value (x (* 2 (+ x 170141183460469231731687303715884105727))))",
        1,
        1,
        "sat\n(error \"line 2 column 15: value past 128 bits\")\n",
    ),
    (
        "(push 65537)",
        1,
        0,
        "(error \"line 1 column 1: push past 65536 levels\")\n",
    ),
    (
        "(pop 1)",
        1,
        0,
        "(error \"line 1 column 1: pop below the first level\")\n",
    ),
    (
        "(push 1)(pop 2)",
        1,
        0,
        "(error \"line 1 column 9: pop below the first level\")\n",
    ),
];

#[test]
fn scripts_tell(rt: HostRuntime) -> Result<(), Fail> {
    let alloc = rt.alloc();
    answer(&rt, alloc, "", &TOLD)?;
    answer(&rt, alloc, "", &NOTHING)?;
    answer(&rt, alloc, "", &FAULTS)?;
    Ok(())
}
