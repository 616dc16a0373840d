//! The forms of strategies over what their arguments were read as.
ghost use Rattle.std.specs.Prelude.{◌≡◌};
ghost use Rattle.strat_text.specs.Form as form;
ghost use Rattle.strat_text.specs.Reading as spec;
ghost use Rattle.strat_text.specs.Given.{Gives};

use crate::error::StratError;
use crate::form::{digits, place};
use crate::number::value;
use crate::parts::{at_least, one, two};
use crate::probe::ProbeExpr;
use crate::strategy::{BRANCHES, Strategy, TURNS};
use sexp_read::Sexp;
use sqlite_items::{Boxed, Items};
use std::alloc::Global;

/// The most turns of a `repeat`.
const MOST_TURNS: u64 = 4294967295;

/// The greatest limit of a `try-for`.
const MOST_LIMIT: u64 = 4611686018427387904;

pub(crate) fn then_of(parts: Items<Strategy>, at: usize) -> Result<Strategy, StratError>
    ensures strategy { Gives result (spec.then_of at parts) }
{
    let parts = at_least(2, parts, at)?;
    Ok(Strategy::Then(parts))
}

pub(crate) fn or_else_of(parts: Items<Strategy>, at: usize) -> Result<Strategy, StratError>
    ensures strategy { Gives result (spec.or_else_of at parts) }
{
    let parts = at_least(2, parts, at)?;
    Ok(Strategy::OrElse(parts))
}

pub(crate) fn par_or_of(parts: Items<Strategy>, at: usize) -> Result<Strategy, StratError>
    ensures strategy { Gives result (spec.par_or_of at parts) }
{
    let parts = at_least(2, parts, at)?;
    if parts.len() > BRANCHES {
        return Err(StratError::BadStrategy(at));
    }
    Ok(Strategy::ParOr(parts))
}

pub(crate) fn par_then_of(
    alloc: Global,
    parts: Items<Strategy>,
    at: usize,
) -> Result<Strategy, StratError>
    ensures strategy { Gives result (spec.par_then_of at parts) }
{
    let (first, second) = two(alloc, parts, at)?;
    Ok(Strategy::ParThen(first, second))
}

pub(crate) fn if_of(
    alloc: Global,
    probe: ProbeExpr,
    parts: Items<Strategy>,
    at: usize,
) -> Result<Strategy, StratError>
    ensures strategy { Gives result (spec.if_of at probe parts) }
{
    let (yes, no) = two(alloc, parts, at)?;
    Ok(Strategy::If(probe, yes, no))
}

pub(crate) fn when_of(
    alloc: Global,
    probe: ProbeExpr,
    parts: Items<Strategy>,
    at: usize,
) -> Result<Strategy, StratError>
    ensures strategy { Gives result (spec.when_of at probe parts) }
{
    let part = one(alloc, parts, at)?;
    Ok(Strategy::When(probe, part))
}

pub(crate) fn fail_if_of(
    bytes: &[u8],
    probe: ProbeExpr,
    rest: &[Sexp],
    at: usize,
) -> Result<Strategy, StratError>
    ensures strategy { Gives result (spec.fail_if_of at (form.forms_of bytes.now rest.now) probe) }
{
    nothing(bytes, rest, at)?;
    Ok(Strategy::FailIf(probe))
}

/// The strategy so many times, or 1,000 times where nothing stands behind it.
pub(crate) fn repeat_of(
    alloc: Global,
    bytes: &[u8],
    part: Strategy,
    rest: &[Sexp],
    at: usize,
) -> Result<Strategy, StratError>
    ensures strategy { Gives result (spec.repeat_of at (form.forms_of bytes.now rest.now) part) }
{
    let part = Boxed::new(alloc, part)?;
    match rest {
        [] => Ok(Strategy::Repeat(part, TURNS)),
        [turns, more @ ..] => {
            let turns = limited(bytes, turns, MOST_TURNS, at)?;
            nothing(bytes, more, at)?;
            Ok(Strategy::Repeat(part, turns))
        }
    }
}

/// The strategy with a limit.
pub(crate) fn try_for_of(
    alloc: Global,
    bytes: &[u8],
    part: Strategy,
    rest: &[Sexp],
    at: usize,
) -> Result<Strategy, StratError>
    ensures strategy { Gives result (spec.try_for_of at (form.forms_of bytes.now rest.now) part) }
{
    let part = Boxed::new(alloc, part)?;
    match rest {
        [] => Err(StratError::BadStrategy(at)),
        [limit, more @ ..] => {
            let limit = limited(bytes, limit, MOST_LIMIT, at)?;
            nothing(bytes, more, at)?;
            Ok(Strategy::TryFor(part, limit))
        }
    }
}

/// Nothing stands here.
#[tactic(auto, using(crate::proofs::Levels::nothing_more))]
fn nothing(bytes: &[u8], rest: &[Sexp], at: usize) -> Result<(), StratError>
    ensures nothing { Gives result (spec.nothing at (form.forms_of bytes.now rest.now)) }
{
    match rest {
        [] => Ok(()),
        _ => Err(StratError::BadStrategy(at)),
    }
}

/// The number of a numeral, which is at most `most`. What is no numeral is told at the form.
fn limited(bytes: &[u8], sexp: &Sexp, most: u64, at: usize) -> Result<u64, StratError>
    ensures number { Gives result (spec.limited at most (form.form_of bytes.now sexp.now) (form.numeral_of (form.form_of bytes.now sexp.now))) }
{
    match digits(bytes, sexp) {
        None => Err(StratError::BadStrategy(at)),
        Some(digits) => {
            let place = place(bytes, sexp);
            let number = at_most(digits, most, place)?;
            Ok(number)
        }
    }
}

/// The number of digits, which is at most `most`.
fn at_most(digits: &[u8], most: u64, place: usize) -> Result<u64, StratError>
    ensures number { Gives result (spec.within most place (form.value_from 0 digits.now)) }
{
    match value(digits) {
        Some(number) if number <= u128::from(most) => Ok(number as u64),
        _ => Err(StratError::BadStrategy(place)),
    }
}
