//! Probes read from s-expressions.
ghost use Rattle.std.specs.Prelude.{◌≡◌, ℤ, Option, IsTrue};
ghost use Rattle.strat_text.specs.Form as form;
ghost use Rattle.strat_text.specs.Number as numbers;
ghost use Rattle.strat_text.specs.Words as words;
ghost use Rattle.strat_text.specs.Reading as spec;
ghost use Rattle.strat_text.specs.Given.{Gives, seen};

use crate::error::StratError;
use crate::form::{minus, operator_in, text_at};
use crate::number::{Number, positive};
use crate::parts::{at_least, one, two};
use crate::probe::ProbeExpr;
use crate::words::{Operator, probe_named};
use sexp_read::{AtomKind, Sexp};
use sqlite_items::Items;
use std::alloc::Global;

/// The probe that an s-expression spells, or its first fault. The calls nest as deep as the s-expression does.
#[cycle(probe)]
pub(crate) fn read_probe(alloc: Global, bytes: &[u8], sexp: &Sexp) -> Result<ProbeExpr, StratError>
    ensures probe { Gives result (spec.read_probe (form.form_of bytes.now sexp.now)) }
{
    match sexp {
        Sexp::Atom { kind, start, end } => atom(*kind, text_at(bytes, *start, *end), *start),
        Sexp::List { items, start, .. } => read_form(alloc, bytes, items.as_slice(), *start),
    }
}

/// An atom as a probe.
fn atom(kind: AtomKind, text: &[u8], at: usize) -> Result<ProbeExpr, StratError>
    ensures probe { Gives result (spec.probe_atom kind text.now at) }
{
    match kind {
        AtomKind::Symbol => named(text, at),
        AtomKind::Numeral => number(positive(text), at),
        _ => Err(StratError::BadStrategy(at)),
    }
}

/// The probe with this name.
fn named(text: &[u8], at: usize) -> Result<ProbeExpr, StratError>
    ensures probe { Gives result (spec.probe_word at (words.probe_named text.now)) }
{
    match probe_named(text) {
        Some(probe) => Ok(probe),
        None => Err(StratError::UnknownProbe(at)),
    }
}

/// A number as a probe.
fn number(number: Number, at: usize) -> Result<ProbeExpr, StratError>
    ensures probe { (z : Option ℤ) → number ≡ seen z → Gives result (spec.probe_number at z) }
{
    match number {
        Number::Fits(number) => Ok(ProbeExpr::Num(number)),
        _ => Err(StratError::BadStrategy(at)),
    }
}

/// A list as a probe: its word, then its arguments, then their number.
#[cycle(probe)]
fn read_form(
    alloc: Global,
    bytes: &[u8],
    items: &[Sexp],
    at: usize,
) -> Result<ProbeExpr, StratError>
    ensures probe { Gives result (spec.read_probe (form.list (form.forms_of bytes.now items.now) at)) }
{
    let Some(operator) = operator(bytes, items) else {
        return Err(StratError::BadStrategy(at));
    };
    if is_minus(operator) {
        return number(negated(bytes, items), at);
    }
    let parts = read_args(alloc, bytes, items)?;
    combined(alloc, operator, parts, at)
}

fn is_minus(operator: Operator) -> bool
    ensures yes { IsTrue result → operator ≡ Operator.Minus }
    ensures no { operator ≡ Operator.Minus → IsTrue result }
{
    matches!(operator, Operator::Minus)
}

/// The operator that a list begins with.
fn operator(bytes: &[u8], items: &[Sexp]) -> Option<Operator>
    ensures { result ≡ words.operator_before (form.forms_of bytes.now items.now) }
{
    match items {
        [] => None,
        [head, ..] => operator_in(bytes, head),
    }
}

/// The number behind the minus that a list begins with.
fn negated(bytes: &[u8], items: &[Sexp]) -> Number
    ensures { result ≡ seen (numbers.minus_of (form.behind (form.forms_of bytes.now items.now))) }
{
    match items {
        [] => Number::Absent,
        [_, args @ ..] => minus(bytes, args),
    }
}

/// Each item behind the first as a probe.
#[cycle(probe)]
fn read_args(alloc: Global, bytes: &[u8], items: &[Sexp]) -> Result<Items<ProbeExpr>, StratError>
    ensures probes { Gives result (spec.read_probes (form.behind (form.forms_of bytes.now items.now))) }
{
    let mut probes = Items::new(alloc);
    for at in 1..items.len() {
        let probe = read_probe(alloc, bytes, &items[at])?;
        probes.push(probe)?;
    }
    Ok(probes)
}

/// The operator over these probes, where it takes as many.
fn combined(
    alloc: Global,
    operator: Operator,
    parts: Items<ProbeExpr>,
    at: usize,
) -> Result<ProbeExpr, StratError>
    ensures probe { Gives result (spec.probe_combined at operator parts) }
{
    match operator {
        Operator::Minus => Err(StratError::BadStrategy(at)),
        Operator::Lt => {
            let (left, right) = two(alloc, parts, at)?;
            Ok(ProbeExpr::Lt(left, right))
        }
        Operator::Le => {
            let (left, right) = two(alloc, parts, at)?;
            Ok(ProbeExpr::Le(left, right))
        }
        Operator::Gt => {
            let (left, right) = two(alloc, parts, at)?;
            Ok(ProbeExpr::Gt(left, right))
        }
        Operator::Ge => {
            let (left, right) = two(alloc, parts, at)?;
            Ok(ProbeExpr::Ge(left, right))
        }
        Operator::Eq => {
            let (left, right) = two(alloc, parts, at)?;
            Ok(ProbeExpr::Eq(left, right))
        }
        Operator::And => {
            let parts = at_least(1, parts, at)?;
            Ok(ProbeExpr::And(parts))
        }
        Operator::Or => {
            let parts = at_least(1, parts, at)?;
            Ok(ProbeExpr::Or(parts))
        }
        Operator::Not => {
            let part = one(alloc, parts, at)?;
            Ok(ProbeExpr::Not(part))
        }
    }
}
