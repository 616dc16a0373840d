//! The settings of `using-params`: parameters and their values in turn.
ghost use Rattle.std.specs.Prelude.{◌≡◌, ◌<◌, ◌≤◌, ℤ, Option, IfOk, length, drop};
ghost use Rattle.strat_text.specs.Form as form;
ghost use Rattle.strat_text.specs.Number as numbers;
ghost use Rattle.strat_text.specs.Reading as spec;
ghost use Rattle.strat_text.specs.Given.{Gives, seen, behind_settings};

use crate::error::StratError;
use crate::form::{number, place, text_at};
use crate::number::Number;
use crate::strategy::{ParamKey, Strategy};
use crate::words::key_of;
use sexp_read::{AtomKind, Sexp};
use sqlite_items::{Boxed, Items};
use std::alloc::{AllocError, Global};

/// Settings, or none where one of them has another shape.
type Settings = Option<Items<(ParamKey, i128)>>;

/// The strategy under settings.
pub(crate) fn params_of(
    alloc: Global,
    bytes: &[u8],
    part: Strategy,
    rest: &[Sexp],
    at: usize,
) -> Result<Strategy, StratError>
    ensures strategy { Gives result (spec.params_of at (form.forms_of bytes.now rest.now) part) }
{
    let settings = read_settings(alloc, bytes, rest)?;
    with_settings(alloc, part, settings, at)
}

fn with_settings(
    alloc: Global,
    part: Strategy,
    settings: Settings,
    at: usize,
) -> Result<Strategy, StratError>
    ensures strategy { Gives result (spec.with_settings at part settings) }
{
    match settings {
        Some(settings) if settings.len() > 0 => {
            let part = Boxed::new(alloc, part)?;
            Ok(Strategy::Params(part, settings))
        }
        _ => Err(StratError::BadStrategy(at)),
    }
}

/// The settings that these spell. The first parameter that is none, or value out of its range, is told; another shape is told by none.
fn read_settings(alloc: Global, bytes: &[u8], args: &[Sexp]) -> Result<Settings, StratError>
    ensures settings { Gives result (spec.read_settings (form.forms_of bytes.now args.now)) }
{
    let mut settings = Some(Items::new(alloc));
    let mut rest = args;
    while rest.len() >= 2 {
        let setting = read_setting(bytes, &rest[0], &rest[1])?;
        settings = with_setting(settings, setting)?;
        rest = behind_two(rest);
    }
    let settings = with_last(bytes, settings, rest)?;
    Ok(settings)
}

/// What stands behind the first two.
fn behind_two(items: &[Sexp]) -> &[Sexp]
    requires { 2 ≤ length items.now }
    ensures { result.now ≡ drop 2 items.now }
{
    &items[2..]
}

/// The settings, where no parameter without a value stands behind them.
fn with_last(bytes: &[u8], settings: Settings, rest: &[Sexp]) -> Result<Settings, StratError>
    requires { length rest.now < 2 }
    ensures settings { Gives result (behind_settings settings (spec.read_settings (form.forms_of bytes.now rest.now))) }
{
    match rest {
        [] => Ok(settings),
        [key, ..] => {
            read_key(bytes, key)?;
            Ok(None)
        }
    }
}

/// One more setting behind the others.
fn with_setting(
    settings: Settings,
    setting: Option<(ParamKey, i128)>,
) -> Result<Settings, AllocError>
    ensures settings { IfOk result (λ all. all ≡ spec.appended settings (spec.alone setting)) }
{
    match (settings, setting) {
        (Some(mut settings), Some(setting)) => {
            settings.push(setting)?;
            Ok(Some(settings))
        }
        _ => Ok(None),
    }
}

/// A parameter and its value.
fn read_setting(
    bytes: &[u8],
    key: &Sexp,
    value: &Sexp,
) -> Result<Option<(ParamKey, i128)>, StratError>
    ensures setting { Gives result (spec.read_setting (form.form_of bytes.now key.now) (form.form_of bytes.now value.now)) }
{
    match read_key(bytes, key)? {
        None => Ok(None),
        Some(key) => {
            let place = place(bytes, value);
            let setting = value_of(key, number(bytes, value), place)?;
            Ok(setting)
        }
    }
}

/// The value of a parameter, in its range.
fn value_of(
    key: ParamKey,
    number: Number,
    place: usize,
) -> Result<Option<(ParamKey, i128)>, StratError>
    ensures setting { (z : Option ℤ) → number ≡ seen z → Gives result (spec.value_read place key z) }
{
    match number {
        Number::Absent => Ok(None),
        Number::Fits(number) if is_within(key, number) => Ok(Some((key, number))),
        _ => Err(StratError::BadStrategy(place)),
    }
}

/// Whether a number is in the range of a parameter.
pub(crate) fn is_within(key: ParamKey, number: i128) -> bool
    ensures { result ≡ numbers.is_within key number }
{
    match key {
        ParamKey::Lia2pbMaxBits => 1 <= number && number <= 64,
        ParamKey::AddBoundLower | ParamKey::AddBoundUpper => number != i128::MIN,
        ParamKey::DropWideMax => 0 <= number && number <= 1048576,
    }
}

/// The parameter that a keyword is. None where it is no keyword.
#[tactic(auto, unfolding(crate::specs::Form::form_of))]
fn read_key(bytes: &[u8], sexp: &Sexp) -> Result<Option<ParamKey>, StratError>
    ensures key { Gives result (spec.read_key (form.form_of bytes.now sexp.now)) }
{
    match sexp {
        Sexp::Atom { kind, start, end } => key_atom(*kind, text_at(bytes, *start, *end), *start),
        Sexp::List { .. } => Ok(None),
    }
}

fn key_atom(kind: AtomKind, text: &[u8], at: usize) -> Result<Option<ParamKey>, StratError>
    ensures key { Gives result (spec.key_atom kind text.now at) }
{
    match kind {
        AtomKind::Keyword => match key_of(text) {
            None => Err(StratError::UnknownParam(at)),
            Some(key) => Ok(Some(key)),
        },
        _ => Ok(None),
    }
}
