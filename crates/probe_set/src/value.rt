//! The value of a probe.
ghost use Rattle.std.specs.Prelude.{◌≡◌, All, IfOk, pos};
ghost use Rattle.std.specs.List.{list_all, list_any};
ghost use Rattle.std.specs.Ordering.{int_eq};
ghost use Rattle.qterm.specs.Store.{Has, Extends, trees_of};
ghost use Rattle.qgoal.specs.Goal.{HasGoal, goal_tree};
ghost use Rattle.probe_set.specs.Probe.{one_if, holds, probe_value, probe_of};

use crate::canonical::is_canonical;
use crate::depth::deepest;
use crate::names::{is_01, is_bounded, is_propositional, max_bits, num_consts, num_exprs};
use qgoal::Goal;
use qterm::{Store, TermId};
use std::alloc::{AllocError, Global};
use strat_text::ProbeExpr;

/// The value of a probe on a goal, which is taken as it stands.
///
/// The calls nest as deep as the probe.
pub fn probe(
    alloc: Global,
    store: &mut Store,
    goal: &Goal,
    expr: &ProbeExpr,
) -> Result<i128, AllocError>
    requires has { HasGoal store.old goal.now }
    ensures value { IfOk result (λ z. z ≡ probe_of (goal_tree store.old goal.now) expr.now) }
    ensures extends { Extends store.old store.new }
{
    let value = value_of(alloc, store, goal.formulas.as_slice(), expr)?;
    Ok(value)
}

/// The value of a probe over formulas.
#[cycle(value)]
fn value_of(
    alloc: Global,
    store: &mut Store,
    formulas: &[TermId],
    expr: &ProbeExpr,
) -> Result<i128, AllocError>
    requires has { All (Has store.old) formulas.now }
    ensures value { IfOk result (λ z. z ≡ probe_value (trees_of store.old formulas.now) expr.now) }
    ensures has { All (Has store.new) formulas.now }
    ensures extends { Extends store.old store.new }
{
    match expr {
        ProbeExpr::Size => Ok(number(formulas.len())),
        ProbeExpr::NumExprs => {
            let n = num_exprs(alloc, store, formulas)?;
            Ok(number(n))
        }
        ProbeExpr::Depth => {
            let n = deepest(alloc, store, formulas)?;
            Ok(number(n))
        }
        ProbeExpr::NumConsts => {
            let n = num_consts(alloc, store, formulas)?;
            Ok(number(n))
        }
        ProbeExpr::IsPropositional => {
            let b = is_propositional(alloc, store, formulas)?;
            Ok(one_if(b))
        }
        ProbeExpr::IsCanonical => {
            let b = is_canonical(alloc, store, formulas)?;
            Ok(one_if(b))
        }
        ProbeExpr::IsBounded => {
            let b = is_bounded(alloc, store, formulas)?;
            Ok(one_if(b))
        }
        ProbeExpr::Is01 => {
            let b = is_01(alloc, store, formulas)?;
            Ok(one_if(b))
        }
        ProbeExpr::MaxBits => {
            let n = max_bits(alloc, store, formulas)?;
            Ok(number(n as usize))
        }
        ProbeExpr::Num(number) => Ok(*number),
        ProbeExpr::Lt(a, b) => {
            let x = value_of(alloc, store, formulas, a.get())?;
            let y = value_of(alloc, store, formulas, b.get())?;
            Ok(one_if(x < y))
        }
        ProbeExpr::Le(a, b) => {
            let x = value_of(alloc, store, formulas, a.get())?;
            let y = value_of(alloc, store, formulas, b.get())?;
            Ok(one_if(x <= y))
        }
        ProbeExpr::Gt(a, b) => {
            let x = value_of(alloc, store, formulas, a.get())?;
            let y = value_of(alloc, store, formulas, b.get())?;
            Ok(one_if(y < x))
        }
        ProbeExpr::Ge(a, b) => {
            let x = value_of(alloc, store, formulas, a.get())?;
            let y = value_of(alloc, store, formulas, b.get())?;
            Ok(one_if(y <= x))
        }
        ProbeExpr::Eq(a, b) => {
            let x = value_of(alloc, store, formulas, a.get())?;
            let y = value_of(alloc, store, formulas, b.get())?;
            Ok(one_if(is_equal(x, y)))
        }
        ProbeExpr::And(parts) => {
            let truth = all_hold(alloc, store, formulas, parts.as_slice())?;
            Ok(one_if(truth))
        }
        ProbeExpr::Or(parts) => {
            let truth = any_holds(alloc, store, formulas, parts.as_slice())?;
            Ok(one_if(truth))
        }
        ProbeExpr::Not(part) => {
            let value = value_of(alloc, store, formulas, part.get())?;
            Ok(one_if(!holds(value)))
        }
    }
}

/// Whether all of the probes hold.
#[cycle(value)]
fn all_hold(
    alloc: Global,
    store: &mut Store,
    formulas: &[TermId],
    parts: &[ProbeExpr],
) -> Result<bool, AllocError>
    requires has { All (Has store.old) formulas.now }
    ensures value { IfOk result (λ b. b ≡ list_all (λ p. holds (probe_value (trees_of store.old formulas.now) p)) parts.now) }
    ensures has { All (Has store.new) formulas.now }
    ensures extends { Extends store.old store.new }
{
    for part in parts {
        let value = value_of(alloc, store, formulas, part)?;
        if !holds(value) {
            return Ok(false);
        }
    }
    Ok(true)
}

/// Whether any of the probes holds.
#[cycle(value)]
fn any_holds(
    alloc: Global,
    store: &mut Store,
    formulas: &[TermId],
    parts: &[ProbeExpr],
) -> Result<bool, AllocError>
    requires has { All (Has store.old) formulas.now }
    ensures value { IfOk result (λ b. b ≡ list_any (λ p. holds (probe_value (trees_of store.old formulas.now) p)) parts.now) }
    ensures has { All (Has store.new) formulas.now }
    ensures extends { Extends store.old store.new }
{
    for part in parts {
        let value = value_of(alloc, store, formulas, part)?;
        if holds(value) {
            return Ok(true);
        }
    }
    Ok(false)
}

/// The number of a truth value.
fn one_if(truth: bool) -> i128
    ensures { result ≡ one_if truth }
{
    if truth { 1 } else { 0 }
}

/// Whether a value counts as true.
fn holds(value: i128) -> bool
    ensures { result ≡ holds value }
{
    value != 0
}

/// A count as a number.
fn number(n: usize) -> i128
    ensures { result ≡ pos n }
{
    n as i128
}

/// Whether two numbers are equal.
fn is_equal(x: i128, y: i128) -> bool
    ensures { result ≡ int_eq x y }
{
    x == y
}
