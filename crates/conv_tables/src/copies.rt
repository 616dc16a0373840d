//! Copies of goals and outcomes, and parameters with settings.
use deriv::{Cause, Outcome, Params, copy_goals};
use qgoal::{Goal, Precision};
use qterm::{Sort, Store, TermId};
use std::alloc::{AllocError, Global};
use std::test::Fail;
use strat_text::ParamKey;
use table_terms::{list, put_name};

/// The goal of these formulas.
fn goal(alloc: Global, ids: &[TermId], precision: Precision) -> Result<Goal, AllocError> {
    Ok(Goal {
        formulas: list(alloc, ids)?,
        precision,
    })
}

/// Whether it is the success with these goals.
fn is_done(out: &Outcome, wanted: &[Goal]) -> bool {
    match out {
        Outcome::Done(goals) => goals.as_slice() == wanted,
        Outcome::Failed(_) => false,
    }
}

/// Whether it is this failure.
fn has_failed(out: &Outcome, wanted: &Cause) -> bool {
    match out {
        Outcome::Done(_) => false,
        Outcome::Failed(cause) => cause == wanted,
    }
}

#[test]
fn copies_are_the_same(rt: HostRuntime) -> Result<(), Fail> {
    let alloc = rt.alloc();
    let mut store = Store::new(alloc);
    let p = put_name(alloc, &mut store, b"p", Sort::Bool)?;
    let goals = [
        goal(alloc, &[p, p], Precision::Under)?,
        goal(alloc, &[], Precision::Precise)?,
    ];
    let copies = copy_goals(alloc, &goals)?;
    assert!(rt; copies.as_slice() == goals.as_slice());
    let done = Outcome::Done(copies).copy(alloc)?;
    assert!(rt; is_done(&done, &goals));
    let spent = Outcome::Failed(Cause::Spent(list(alloc, &[p])?)).copy(alloc)?;
    assert!(rt; has_failed(&spent, &Cause::Spent(list(alloc, &[p])?)));
    Ok(())
}

/// Settings, and the four parameters that they make of the defaults.
type Row = (&'static [(ParamKey, i128)], [i128; 4]);

const ROWS: [Row; 5] = [
    (&[], [32, -2, 2, 3]),
    (&[(ParamKey::Lia2pbMaxBits, 2)], [2, -2, 2, 3]),
    (&[(ParamKey::DropWideMax, 0)], [32, -2, 2, 0]),
    (
        &[(ParamKey::AddBoundLower, -7), (ParamKey::AddBoundUpper, 7)],
        [32, -7, 7, 3],
    ),
    (
        &[(ParamKey::AddBoundUpper, 7), (ParamKey::AddBoundUpper, -1)],
        [32, -2, -1, 3],
    ),
];

#[test]
fn settings_of_parameters(rt: HostRuntime) -> Result<(), Fail> {
    for (settings, [bits, lower, upper, most]) in ROWS {
        let wanted = Params {
            lia2pb_max_bits: bits,
            add_bound_lower: lower,
            add_bound_upper: upper,
            drop_wide_max: most,
        };
        assert_eq!(rt; Params::new().with_all(settings), wanted);
    }
    Ok(())
}
