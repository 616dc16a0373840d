//! Checks and runs alone, as a table, with what their records answer.
ghost use Rattle.std.specs.Prelude.{◌≡◌, ◌≤◌, ◌^◌, ◌↔◌, All, IfOk, IsTrue, true};
ghost use Rattle.qterm.specs.declared.name.Sort.TheVariants.{Bool};
ghost use Rattle.qterm.specs.Store.{HasSort, Extends, trees_of};
ghost use Rattle.goal_depth.specs.Depths.{AreShallow};
ghost use Rattle.lang_runs.specs.Strategies.{runs};

use crate::texts::{asserts, strategy};
use cert_check::{Verdict, check as check_certificate};
use check_record::{Answer, CheckRecord, Why, apply_only, can_run, check};
use deriv::Cause;
use probe_set::probe;
use qgoal::{Goal, Precision};
use qterm::{Sort, Store, TermId, TermIds};
use reducer_iface::{Reducers, Registry, RegistryError};
use std::alloc::{AllocError, Global};
use std::process::Abort;
use std::test::Fail;
use strat_text::{ProbeExpr, ReducerName, Strategy};
use tac_basic::{FailReducer, Skip};
use tac_bounds::{AddBounds, DropWide};
use tac_cert::cert_fits;
use tac_normal::NormalizeBounds;
use tac_sat::Sat;
use tac_simplify::Simplify;

/// Whether these are formulas of the store.
fn are_formulas(store: &Store, ids: &[TermId]) -> bool
    ensures { IsTrue result ↔ All (HasSort Bool store.now) ids.now }
{
    ids.iter()
        .all(|id| store.has(*id) && store.sort(*id) == Sort::Bool)
}

/// Whether the formulas are at most 100 deep, so that a check may begin with them.
fn are_shallow(alloc: Global, store: &mut Store, ids: &[TermId]) -> Result<bool, AllocError>
    requires formulas { All (HasSort Bool store.old) ids.now }
    ensures shallow { IfOk result (λ yes. IsTrue yes → AreShallow (trees_of store.new ids.now)) }
    ensures formulas { IfOk result (λ _. All (HasSort Bool store.new) ids.now) }
{
    let goal = Goal {
        formulas: TermIds::from_vec(Vec::from_slice(alloc, ids)?),
        precision: Precision::Precise,
    };
    let depth = probe(alloc, store, &goal, &ProbeExpr::Depth)?;
    Ok(depth <= 100)
}

/// What an answer is in short.
#[derive(Clone, Copy, Debug, PartialEq, Eq)]
pub enum Found {
    Sat,
    Unsat,
    /// So many goals.
    Goals(usize),
    /// The strategy failed, as it was told to.
    Told,
    /// It failed at that formula, which is no clause.
    NotClausal(u32),
    /// It failed after so many lemmas.
    Spent(usize),
    /// It failed at the end of the pool, after so many lemmas.
    PoolSpent(usize),
    /// Its derivation was too deep.
    TooDeep,
    Other,
}

/// What a cause is in short.
fn of_cause(cause: &Cause) -> Found {
    match cause {
        Cause::Told => Found::Told,
        Cause::NotClausal(number) => Found::NotClausal(*number),
        Cause::Spent(lemmas) => Found::Spent(lemmas.len()),
        Cause::PoolSpent { lemmas, .. } => Found::PoolSpent(lemmas.len()),
        Cause::TooDeep => Found::TooDeep,
        _ => Found::Other,
    }
}

/// What an answer is in short.
fn of_answer(answer: &Answer) -> Found {
    match answer {
        Answer::Sat(_) => Found::Sat,
        Answer::Unsat(_) => Found::Unsat,
        Answer::Unknown(Why::Undecided(goals)) => Found::Goals(goals.len()),
        Answer::Unknown(Why::Failed(cause)) => of_cause(cause),
        Answer::Subgoals(goals) => Found::Goals(goals.len()),
        Answer::NoSubgoals(Why::Failed(cause)) => of_cause(cause),
        _ => Found::Other,
    }
}

/// Assertions, a strategy, and what the check is to answer.
type Row = (&'static str, &'static str, Found);

const CHECKS: [Row; 47] = [
    ("pq|p!", "sat", Found::Sat),
    ("pq|p!q!", "sat", Found::Unsat),
    ("pp!", "(or-else fail (then skip sat))", Found::Unsat),
    ("", "skip", Found::Sat),
    ("F", "skip", Found::Unsat),
    ("p", "fail", Found::Told),
    ("p", "skip", Found::Goals(1)),
    ("pq|", "(when (= size 1) sat)", Found::Sat),
    ("pq|", "(when (= size 2) sat)", Found::Goals(1)),
    ("pq|", "(if (= size 2) sat fail)", Found::Told),
    ("p", "(fail-if (= size 1))", Found::Told),
    ("p", "(fail-if (= size 2))", Found::Goals(1)),
    ("p!x2<|", "(then simplify sat)", Found::NotClausal(1)),
    ("pq|pq!|p!q|p!q!|", "(try-for sat 0)", Found::Spent(1)),
    (
        "pq|pq!|p!q|p!q!|",
        "(or-else (try-for sat 0) sat)",
        Found::Unsat,
    ),
    ("pp!q|q!", "(try-for sat 0)", Found::Unsat),
    ("p", "(or-else skip sat)", Found::Goals(1)),
    ("p", "(or-else fail fail)", Found::Told),
    ("p", "(par-or fail (then simplify sat))", Found::Sat),
    (
        "pq|pq!|p!q|p!q!|",
        "(par-or (try-for sat 0) sat)",
        Found::Unsat,
    ),
    ("p", "(par-or skip sat)", Found::Goals(1)),
    ("pq|", "(par-then simplify sat)", Found::Sat),
    ("pp!", "(par-then skip (then simplify sat))", Found::Unsat),
    ("pq|", "(par-then skip fail)", Found::Told),
    ("pq|", "(repeat simplify 0)", Found::Goals(1)),
    ("pq|", "(repeat skip 9)", Found::Goals(1)),
    ("pq|", "(repeat sat 9)", Found::Sat),
    (
        "pq&r&",
        "(then (repeat simplify 9) (fail-if (= size 3)))",
        Found::Told,
    ),
    (
        "p!q&",
        "(using-params (then simplify sat) :drop_wide_max 3)",
        Found::Sat,
    ),
    ("p", "(then (repeat fail 1) skip)", Found::Told),
    ("pq|r", "(then drop-wide sat)", Found::Sat),
    (
        "pq|r",
        "(then (using-params drop-wide :drop_wide_max 1) sat)",
        Found::Goals(1),
    ),
    (
        "pq|rr!",
        "(then (using-params drop-wide :drop_wide_max 1) sat)",
        Found::Unsat,
    ),
    ("", "add-bounds", Found::Sat),
    ("F", "add-bounds", Found::Unsat),
    (
        "x5<",
        "(then simplify (fail-if is-bounded))",
        Found::Goals(1),
    ),
    (
        "x5<",
        "(then add-bounds (fail-if (and is-bounded (= size 2) (= max-bits 3))))",
        Found::Told,
    ),
    (
        "x5<",
        "(then (using-params add-bounds :add_bound_lower 4) (fail-if (= max-bits 1)))",
        Found::Told,
    ),
    (
        "0x<x1<",
        "(then add-bounds (fail-if (and is-01 (= size 2))))",
        Found::Told,
    ),
    (
        "x5<",
        "(then add-bounds (using-params drop-wide :drop_wide_max 0))",
        Found::Goals(1),
    ),
    ("", "normalize-bounds", Found::Sat),
    ("F", "normalize-bounds", Found::Unsat),
    ("2x<x5<", "normalize-bounds", Found::Goals(1)),
    (
        "2x<x5<",
        "(then normalize-bounds (fail-if (and is-bounded (= size 2) (= max-bits 2))))",
        Found::Told,
    ),
    (
        "2x<x3<",
        "(then normalize-bounds (fail-if (and is-01 (= size 2))))",
        Found::Told,
    ),
    ("2x<x3<", "(then simplify (fail-if is-01))", Found::Goals(1)),
    (
        "x5<",
        "(then (using-params add-bounds :add_bound_lower 4) normalize-bounds (fail-if is-01))",
        Found::Told,
    ),
];

/// Assertions, a strategy, a pool, what the check is to answer, and how many lemmas it is to draw.
type DrawRow = (&'static str, &'static str, u64, Found, u64);

const FOUR: &str = "pq|pq!|p!q|p!q!|";

const DRAWS: [DrawRow; 6] = [
    ("pq|", "sat", 100, Found::Sat, 0),
    (FOUR, "(try-for sat 0)", 100, Found::Spent(1), 1),
    (
        FOUR,
        "(or-else (try-for sat 0) (try-for sat 0))",
        100,
        Found::Spent(1),
        2,
    ),
    (
        FOUR,
        "(or-else (try-for sat 0) (then (try-for sat 0) skip))",
        1,
        Found::Spent(1),
        2,
    ),
    (
        FOUR,
        "(then (or-else (try-for sat 0) skip) (try-for sat 0) skip)",
        1,
        Found::PoolSpent(1),
        2,
    ),
    (
        FOUR,
        "(then (or-else (try-for sat 0) (try-for sat 0) skip) (try-for sat 0))",
        1,
        Found::PoolSpent(1),
        2,
    ),
];

/// The same for runs alone.
const RUNS: [Row; 6] = [
    ("pq|", "(if (= size 1) simplify fail)", Found::Goals(1)),
    ("pq|", "(fail-if (>= num-consts 2))", Found::Told),
    ("0x<x9<", "(repeat simplify 0)", Found::Goals(1)),
    (
        "pq|",
        "(fail-if (and (= size 1) (= num-exprs 3) (= depth 2) (= num-consts 2) is-propositional))",
        Found::Told,
    ),
    (
        "0x<x9<",
        "(if (or is-canonical is-bounded is-propositional (< max-bits 128)) skip (then simplify (fail-if (and is-canonical is-bounded (not is-01) (= max-bits 4)))))",
        Found::Told,
    ),
    (
        "0x<x1<",
        "(then simplify (fail-if (and is-01 (= max-bits 1) (> 2 num-consts))))",
        Found::Told,
    ),
];

/// How a row is run: with which pool, and whether alone.
#[derive(Clone, Copy)]
pub struct How {
    pub pool: u64,
    pub alone: bool,
}

/// The record of a check, or of a run alone, with the number 7.
fn record_of(
    alloc: Global,
    registry: &Registry,
    store: &mut Store,
    ids: &[TermId],
    strategy: &Strategy,
    how: How,
) -> Result<CheckRecord, AllocError>
    requires formulas { All (HasSort Bool store.old) ids.now }
    requires shallow { AreShallow (trees_of store.old ids.now) }
    requires runs { runs (⟦<Registry as Reducers>⟧.kinds registry.now) strategy.now ≡ true }
    requires pool { (1 ≤ how.pool) × (how.pool ≤ 2 ^ 62) }
{
    if how.alone {
        apply_only(alloc, registry, store, 7, ids, strategy, 1, how.pool)
    } else {
        check(alloc, registry, store, 7, ids, strategy, 1, how.pool)
    }
}

/// Whether the answer is no certificate, or one with that number that is accepted.
fn is_accepted(
    alloc: Global,
    store: &mut Store,
    ids: &[TermId],
    record: &CheckRecord,
) -> Result<bool, AllocError> {
    match &record.answer {
        Answer::Unsat(cert) => if cert_fits(store, cert) && are_formulas(store, ids) {
            let verdict = check_certificate(alloc, store, ids, cert)?;
            Ok(verdict == Verdict::Accepted && cert.check == 7)
        } else {
            Ok(false)
        },
        _ => Ok(true),
    }
}

/// What a record answers in short, where its certificate, if it has one, is accepted, and how many lemmas it drew.
fn in_short(
    alloc: Global,
    store: &mut Store,
    ids: &[TermId],
    record: &CheckRecord,
) -> Result<(Found, u64), AllocError> {
    let found = if is_accepted(alloc, store, ids, record)? {
        of_answer(&record.answer)
    } else {
        Found::Other
    };
    Ok((found, record.drawn))
}

/// What a check of these assertions answers, or a run alone.
fn found_by(
    alloc: Global,
    registry: &Registry,
    store: &mut Store,
    ids: &[TermId],
    strategy: &Strategy,
    how: How,
) -> Result<(Found, u64), AllocError>
    requires formulas { All (HasSort Bool store.old) ids.now }
    requires shallow { AreShallow (trees_of store.old ids.now) }
    requires runs { runs (⟦<Registry as Reducers>⟧.kinds registry.now) strategy.now ≡ true }
    requires pool { (1 ≤ how.pool) × (how.pool ≤ 2 ^ 62) }
{
    let record = record_of(alloc, registry, store, ids, strategy, how)?;
    in_short(alloc, store, ids, &record)
}

/// The same, where the assertions are formulas that are at most 100 deep, the strategy may run, and the pool is within its limits.
fn found_in(
    alloc: Global,
    registry: &Registry,
    store: &mut Store,
    ids: &[TermId],
    strategy: &Strategy,
    how: How,
) -> Result<(Found, u64), AllocError> {
    let is_pool = 1 <= how.pool && how.pool <= 1 << 62;
    if is_pool && are_formulas(store, ids) && can_run(registry, strategy) {
        if are_shallow(alloc, store, ids)? {
            return found_by(alloc, registry, store, ids, strategy, how);
        }
    }
    Err(AllocError)
}

/// What the assertions and the strategy of these texts answer, and how many lemmas were drawn.
pub fn found_of(
    alloc: Global,
    registry: &Registry,
    assertions: &str,
    tactic: &str,
    how: How,
) -> Result<(Found, u64), AllocError> {
    let mut store = Store::new(alloc);
    let ids = asserts(alloc, &mut store, assertions)?;
    let strategy = strategy(alloc, tactic)?;
    found_in(alloc, registry, &mut store, ids.as_slice(), &strategy, how)
}

/// Whether a reducer was inserted.
fn is_in(inserted: Result<(), RegistryError>) -> bool {
    inserted.is_ok()
}

/// The registry of the reducers that are built.
pub fn built(alloc: Global) -> Result<Registry, AllocError> {
    let mut registry = Registry::new(alloc);
    let skip = registry.insert(ReducerName::new(alloc, b"skip")?, Box::new(alloc, Skip)?);
    let fail = registry.insert(
        ReducerName::new(alloc, b"fail")?,
        Box::new(alloc, FailReducer)?,
    );
    let simplify = registry.insert(
        ReducerName::new(alloc, b"simplify")?,
        Box::new(alloc, Simplify)?,
    );
    let bounds = registry.insert(
        ReducerName::new(alloc, b"add-bounds")?,
        Box::new(alloc, AddBounds)?,
    );
    let wide = registry.insert(
        ReducerName::new(alloc, b"drop-wide")?,
        Box::new(alloc, DropWide)?,
    );
    let sat = registry.insert(ReducerName::new(alloc, b"sat")?, Box::new(alloc, Sat)?);
    let normal = registry.insert(
        ReducerName::new(alloc, b"normalize-bounds")?,
        Box::new(alloc, NormalizeBounds)?,
    );
    let is_first = is_in(skip) && is_in(fail) && is_in(simplify) && is_in(bounds);
    if is_first && is_in(wide) && is_in(sat) && is_in(normal) {
        Ok(registry)
    } else {
        Err(AllocError)
    }
}

/// Asserts that each row answers what it is to answer.
fn run(
    rt: &impl Abort,
    alloc: Global,
    registry: &Registry,
    rows: &[Row],
    alone: bool,
) -> Result<(), AllocError> {
    for row in rows {
        let how = How { pool: 100, alone };
        let found = found_of(alloc, registry, row.0, row.1, how)?;
        assert_eq!(rt; found.0, row.2, "{} {}", row.0, row.1);
    }
    Ok(())
}

#[test]
fn records_tell_what_strategies_decide(rt: HostRuntime) -> Result<(), Fail> {
    let alloc = rt.alloc();
    let registry = built(alloc)?;
    run(&rt, alloc, &registry, &CHECKS, false)?;
    run(&rt, alloc, &registry, &RUNS, true)?;
    Ok(())
}

#[test]
fn records_tell_how_many_lemmas_were_drawn(rt: HostRuntime) -> Result<(), Fail> {
    let alloc = rt.alloc();
    let registry = built(alloc)?;
    for (assertions, tactic, pool, wanted, drawn) in DRAWS {
        let how = How { pool, alone: false };
        let found = found_of(alloc, &registry, assertions, tactic, how)?;
        assert_eq!(rt; found, (wanted, drawn), "{assertions} {tactic}");
    }
    Ok(())
}
