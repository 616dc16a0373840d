//! Rows of `answer_text` without a store: models, values, causes, the lines of reasons and information, and faults.
ghost use Rattle.std.specs.Prelude.{◌↔◌, IsTrue, All};
ghost use Rattle.answer_text.specs.Values.{IsWithin};

use answer_text::{
    ERROR_BEHAVIOR, FAILED_MEMOUT, INCOMPLETE, MEMOUT, NAME, SAT, SUCCESS, UNKNOWN, UNSAT,
    UNSUPPORTED, VERSION, ValueRow, write_cause, write_error, write_failed, write_failed_reason,
    write_model, write_values, write_wide_reason,
};
use deriv::Cause;
use qeval::{Model, Value};
use qterm::{Name, Sort, Store, Term, TermId, TermIds};
use smt_words::What;
use std::alloc::{AllocError, Global};
use std::test::Fail;
use table_terms::{list, named, put};

/// The rows of a model in the order of their names.
const VALUES: [(&[u8], Sort, Value); 6] = [
    (b"x", Sort::Int, Value::Int(3)),
    (b"y", Sort::Int, Value::Int(-2)),
    (b"p", Sort::Bool, Value::Bool(true)),
    (b"q 1", Sort::Bool, Value::Bool(false)),
    (b"pop", Sort::Int, Value::Int(0)),
    (b"least", Sort::Int, Value::Int(i128::MIN)),
];

const MODEL: &[u8] = b"(
  (define-fun x () Int 3)
  (define-fun y () Int (- 2))
  (define-fun p () Bool true)
  (define-fun |q 1| () Bool false)
  (define-fun |pop| () Int 0)
  (define-fun least () Int (- 170141183460469231731687303715884105728))
)
";

/// The text of the model of those rows.
fn model_of_rows(alloc: Global) -> Result<Vec<u8>, AllocError> {
    let mut names = Vec::new(alloc);
    let mut model = Model::new(alloc);
    for (text, sort, value) in VALUES {
        names.push(named(alloc, text, sort)?)?;
        model.set(named(alloc, text, sort)?, value)?;
    }
    write_model(alloc, names.as_slice(), &model)
}

/// Whether the terms of rows stand in the bytes.
fn are_within(bytes: &[u8], rows: &[ValueRow]) -> bool
    ensures { IsTrue result ↔ All (IsWithin bytes.now) rows.now }
{
    rows.iter()
        .all(|row| row.start <= row.end && row.end <= bytes.len())
}

/// The line of the values of terms that stand in the bytes.
fn values_of(alloc: Global, bytes: &[u8], rows: &[ValueRow]) -> Result<Vec<u8>, AllocError> {
    if are_within(bytes, rows) {
        write_values(alloc, bytes, rows)
    } else {
        Err(AllocError)
    }
}

/// The row of a term at these places.
fn row(start: usize, end: usize, value: Value) -> ValueRow {
    ValueRow { start, end, value }
}

#[test]
fn models_and_values(rt: HostRuntime) -> Result<(), Fail> {
    let alloc = rt.alloc();
    assert!(rt; model_of_rows(alloc)?.as_slice() == MODEL);
    let none = Model::new(alloc);
    assert!(rt; write_model(alloc, &[], &none)?.as_slice() == b"(\n)\n".as_slice());
    let script: &[u8] = b"(get-value (x (+ x y)))";
    let x = row(12, 13, Value::Int(3));
    let sum = row(14, 21, Value::Int(5));
    let less = row(14, 21, Value::Bool(false));
    let rows: [(&[ValueRow], &[u8]); 3] = [
        (&[x, sum], b"((x 3) ((+ x y) 5))\n"),
        (&[less], b"(((+ x y) false))\n"),
        (&[], b"()\n"),
    ];
    for (values, want) in rows {
        assert!(rt; values_of(alloc, script, values)?.as_slice() == want);
    }
    Ok(())
}

/// A term, and two lists of it, three and one long.
fn lemmas(alloc: Global) -> Result<(TermId, TermIds, TermIds), AllocError> {
    let mut store = Store::new(alloc);
    let term = put(&mut store, Term::True)?;
    Ok((
        term,
        list(alloc, &[term, term, term])?,
        list(alloc, &[term])?,
    ))
}

/// The causes, each with its text.
fn causes(alloc: Global) -> Result<[(Cause, &'static [u8]); 13], AllocError> {
    let (term, three, one) = lemmas(alloc)?;
    let ticket = 18446744073709551615;
    Ok([
        (Cause::Told, b"told"),
        (Cause::NoClause, b"no-clause"),
        (
            Cause::NotBounded(named(alloc, b"x", Sort::Int)?),
            b"(not-bounded x)",
        ),
        (
            Cause::TooManyBits(named(alloc, b"x y", Sort::Int)?),
            b"(too-many-bits |x y|)",
        ),
        (
            Cause::NotZeroOne(named(alloc, b"let", Sort::Int)?),
            b"(not-zero-one |let|)",
        ),
        (Cause::NotClausal(4294967295), b"(not-clausal 4294967295)"),
        (Cause::TooWide(term), b"too-wide"),
        (Cause::TooLarge(1048577), b"(too-large 1048577)"),
        (Cause::TooManyGoals(65537), b"(too-many-goals 65537)"),
        (Cause::TooDeep, b"too-deep"),
        (Cause::Spent(three), b"(spent 3)"),
        (
            Cause::PoolSpent {
                ticket,
                lemmas: one,
            },
            b"(pool-spent 18446744073709551615)",
        ),
        (Cause::Custom, b"custom"),
    ])
}

/// The lines that are always the same.
const LINES: [(&[u8], &[u8]); 11] = [
    (SAT, b"sat\x0A"),
    (UNSAT, b"unsat\x0A"),
    (UNKNOWN, b"unknown\x0A"),
    (SUCCESS, b"success\x0A"),
    (UNSUPPORTED, b"unsupported\x0A"),
    (NAME, b"(:name \"tacsmt\")\x0A"),
    (VERSION, b"(:version \"1\")\x0A"),
    (ERROR_BEHAVIOR, b"(:error-behavior immediate-exit)\x0A"),
    (INCOMPLETE, b"(:reason-unknown incomplete)\x0A"),
    (MEMOUT, b"(:reason-unknown memout)\x0A"),
    (FAILED_MEMOUT, b"(failed memout)\x0A"),
];

/// The lines that name a cause or a name, each with its bytes.
fn lines_by_cause(alloc: Global) -> Result<[(Vec<u8>, &'static [u8]); 3], AllocError> {
    let x = named(alloc, b"x", Sort::Int)?;
    let cause = Cause::NotBounded(named(alloc, b"x", Sort::Int)?);
    Ok([
        (
            write_wide_reason(alloc, &x)?,
            b"(:reason-unknown (value-too-wide x))\x0A",
        ),
        (
            write_failed_reason(alloc, &cause)?,
            b"(:reason-unknown (failed (not-bounded x)))\x0A",
        ),
        (
            write_failed(alloc, &cause)?,
            b"(failed (not-bounded x))\x0A",
        ),
    ])
}

#[test]
fn causes_and_lines(rt: HostRuntime) -> Result<(), Fail> {
    let alloc = rt.alloc();
    for (cause, want) in &causes(alloc)? {
        assert!(rt; write_cause(alloc, cause)?.as_slice() == *want);
    }
    for (line, want) in LINES {
        assert!(rt; line == want);
    }
    for (line, want) in &lines_by_cause(alloc)? {
        assert!(rt; line.as_slice() == *want);
    }
    Ok(())
}

const WIDE: &[u8] =
    b"(declare-const x Int)\n(assert (= x 170141183460469231731687303715884105728))";

const OPEN: &[u8] = b"(declare-const x Int)\n(check-sat)\n(assert (<= x";

/// Faults at places of scripts, with their lines.
const FAULTS: [(&[u8], usize, What, &[u8]); 21] = [
    (
        WIDE,
        35,
        What::WideNumeral,
        b"(error \"line 2 column 14: number past 128 bits\")\n",
    ),
    (
        OPEN,
        34,
        What::Unclosed,
        b"(error \"line 3 column 1: unclosed parenthesis\")\n",
    ),
    (
        b"(get-model)",
        0,
        What::NoAnswer,
        b"(error \"line 1 column 1: no answer to show\")\n",
    ),
    (
        b"ab",
        2,
        What::Lexical,
        b"(error \"line 1 column 3: bad token\")\n",
    ),
    (
        b"\n\n",
        2,
        What::TooDeep,
        b"(error \"line 3 column 1: nesting past 1000\")\n",
    ),
    (
        b"a\r\t\xC3\xA9 b",
        6,
        What::UnknownCommand,
        b"(error \"line 1 column 7: unknown command\")\n",
    ),
    (
        b"\n012345678",
        9,
        What::BadShape,
        b"(error \"line 2 column 9: wrong arguments\")\n",
    ),
    (
        b"\n0123456789",
        10,
        What::UnknownSymbol,
        b"(error \"line 2 column 10: unknown symbol\")\n",
    ),
    (
        b"a\n",
        1,
        What::Redeclared,
        b"(error \"line 1 column 2: name already declared\")\n",
    ),
    (
        b"",
        0,
        What::BadSort,
        b"(error \"line 1 column 1: wrong sort\")\n",
    ),
    (
        b"",
        0,
        What::NotLinear,
        b"(error \"line 1 column 1: product is not linear\")\n",
    ),
    (
        b"",
        0,
        What::TooManyTerms,
        b"(error \"line 1 column 1: more than 1048576 terms\")\n",
    ),
    (
        b"",
        0,
        What::BadLogic,
        b"(error \"line 1 column 1: logic not supported\")\n",
    ),
    (
        b"",
        0,
        What::PushTooMany,
        b"(error \"line 1 column 1: push past 65536 levels\")\n",
    ),
    (
        b"",
        0,
        What::PopTooMany,
        b"(error \"line 1 column 1: pop below the first level\")\n",
    ),
    (
        b"",
        0,
        What::UnknownReducer,
        b"(error \"line 1 column 1: unknown reducer\")\n",
    ),
    (
        b"",
        0,
        What::UnknownProbe,
        b"(error \"line 1 column 1: unknown probe\")\n",
    ),
    (
        b"",
        0,
        What::UnknownParam,
        b"(error \"line 1 column 1: unknown parameter\")\n",
    ),
    (
        b"",
        0,
        What::BadStrategy,
        b"(error \"line 1 column 1: bad strategy\")\n",
    ),
    (
        b"",
        0,
        What::WideValue,
        b"(error \"line 1 column 1: value past 128 bits\")\n",
    ),
    (
        b"",
        0,
        What::TooLong,
        b"(error \"line 1 column 1: script too long\")\n",
    ),
];

#[test]
fn faults_of_scripts(rt: HostRuntime) -> Result<(), Fail> {
    for (script, place, fault, want) in FAULTS {
        assert!(rt; write_error(rt.alloc(), script, fault, place)?.as_slice() == want);
    }
    Ok(())
}
