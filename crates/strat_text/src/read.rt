//! Strategies read from s-expressions.
ghost use Rattle.std.specs.Prelude.{◌≡◌, true, Ok, IfOk};
ghost use Rattle.std.specs.List.{list_any};
ghost use Rattle.std.specs.Option.{option_copied};
ghost use Rattle.std.specs.Str.{bytes_eq};
ghost use Rattle.strat_text.specs.Allowed.{is_allowed};
ghost use Rattle.strat_text.specs.Form as form;
ghost use Rattle.strat_text.specs.Grammar as grammar;
ghost use Rattle.strat_text.specs.Reading as spec;
ghost use Rattle.strat_text.specs.Faults as told;
ghost use Rattle.strat_text.specs.Given.{Gives, Tells, after};
ghost use Rattle.strat_text.specs.Known.{are_known};

use crate::error::StratError;
use crate::form::{head_in, place, text_at};
use crate::forms::{
    fail_if_of, if_of, or_else_of, par_or_of, par_then_of, repeat_of, then_of, try_for_of, when_of,
};
use crate::name::ReducerName;
use crate::read_probe::read_probe;
use crate::settings::params_of;
use crate::strategy::{DEPTH, Strategy};
use crate::words::{Head, same};
use sexp_read::{AtomKind, Sexp, is_simple_symbol};
use sqlite_items::Items;
use std::alloc::Global;

/// The strategy that an s-expression of these bytes spells, or the first of its faults in the order word, arguments from left to right,
/// shape. Where a list of names is given, a name has to be one of them.
///
/// The calls for probes nest as deep as the s-expression does, those for strategies at most 64 deep.
pub fn read_strategy(
    alloc: Global,
    bytes: &[u8],
    sexp: &Sexp,
    reducers: Option<&[ReducerName]>,
) -> Result<Strategy, StratError>
    ensures read { Gives result (spec.read_strategy (option_copied reducers.entry) (form.form_of bytes.now sexp.now) DEPTH) }
    ensures spelled { IfOk result (grammar.Spells (option_copied reducers.entry) DEPTH (form.form_of bytes.now sexp.now)) }
    ensures complete { (s : Strategy) → grammar.Spells (option_copied reducers.entry) DEPTH (form.form_of bytes.now sexp.now) s → Gives result (Ok s) }
    ensures told { Tells result (told.faults (option_copied reducers.entry) (form.form_of bytes.now sexp.now) DEPTH) }
    ensures allowed { IfOk result (λ s. is_allowed s ≡ true) }
    ensures known { IfOk result (λ s. are_known (option_copied reducers.entry) s ≡ true) }
{
    read_at(alloc, bytes, sexp, reducers, DEPTH)
}

/// An s-expression as a strategy of at most `left` levels.
#[cycle(strategy)]
fn read_at(
    alloc: Global,
    bytes: &[u8],
    sexp: &Sexp,
    names: Option<&[ReducerName]>,
    left: usize,
) -> Result<Strategy, StratError>
    ensures strategy { Gives result (spec.read_strategy (option_copied names.entry) (form.form_of bytes.now sexp.now) left) }
{
    if left == 0 {
        return Err(StratError::BadStrategy(place(bytes, sexp)));
    }
    match sexp {
        Sexp::Atom { kind, start, end } => {
            atom(alloc, *kind, text_at(bytes, *start, *end), *start, names)
        }
        Sexp::List { items, start, .. } => {
            read_form(alloc, bytes, items.as_slice(), *start, names, left - 1)
        }
    }
}

/// An atom as a strategy.
fn atom(
    alloc: Global,
    kind: AtomKind,
    text: &[u8],
    at: usize,
    names: Option<&[ReducerName]>,
) -> Result<Strategy, StratError>
    ensures strategy { Gives result (spec.strategy_atom (option_copied names.entry) kind text.now at) }
{
    match kind {
        AtomKind::Symbol => named(alloc, text, at, names),
        _ => Err(StratError::BadStrategy(at)),
    }
}

/// A name as a strategy.
fn named(
    alloc: Global,
    text: &[u8],
    at: usize,
    names: Option<&[ReducerName]>,
) -> Result<Strategy, StratError>
    ensures strategy { Gives result (spec.name_read (option_copied names.entry) text.now at) }
{
    if !is_simple_symbol(text) {
        return Err(StratError::BadStrategy(at));
    }
    if !is_known(text, names) {
        return Err(StratError::UnknownReducer(at));
    }
    let name = ReducerName::new(alloc, text)?;
    Ok(Strategy::Prim(name))
}

/// Whether a name is one of these, where there is a list of names.
fn is_known(text: &[u8], names: Option<&[ReducerName]>) -> bool
    ensures { result ≡ grammar.is_known (option_copied names.entry) text.now }
{
    match names {
        None => true,
        Some(names) => contains(names, text),
    }
}

fn contains(names: &[ReducerName], text: &[u8]) -> bool
    ensures { result ≡ list_any (bytes_eq text.now) names.now }
{
    names.iter().any(|name| same(text, name.text()))
}

/// A list as a strategy: its word, then its arguments, then its shape.
#[cycle(strategy)]
fn read_form(
    alloc: Global,
    bytes: &[u8],
    items: &[Sexp],
    at: usize,
    names: Option<&[ReducerName]>,
    left: usize,
) -> Result<Strategy, StratError>
    ensures strategy { Gives result (spec.list_read (option_copied names.entry) at left (form.forms_of bytes.now items.now)) }
{
    match items {
        [head, first, rest @ ..] => match head_in(bytes, head) {
            None => Err(StratError::BadStrategy(at)),
            Some(head) => read_by(alloc, bytes, head, first, rest, at, names, left),
        },
        [] | [_] => Err(StratError::BadStrategy(at)),
    }
}

/// A form by its head, its first argument and the others.
#[cycle(strategy)]
fn read_by(
    alloc: Global,
    bytes: &[u8],
    head: Head,
    first: &Sexp,
    rest: &[Sexp],
    at: usize,
    names: Option<&[ReducerName]>,
    left: usize,
) -> Result<Strategy, StratError>
    ensures strategy { Gives result (spec.strategy_by (option_copied names.entry) at (form.form_of bytes.now first.now) (form.forms_of bytes.now rest.now) left head) }
{
    match head {
        Head::Then => {
            let parts = read_all(alloc, bytes, first, rest, names, left)?;
            then_of(parts, at)
        }
        Head::OrElse => {
            let parts = read_all(alloc, bytes, first, rest, names, left)?;
            or_else_of(parts, at)
        }
        Head::ParOr => {
            let parts = read_all(alloc, bytes, first, rest, names, left)?;
            par_or_of(parts, at)
        }
        Head::ParThen => {
            let both = read_all(alloc, bytes, first, rest, names, left)?;
            par_then_of(alloc, both, at)
        }
        Head::If => {
            let probe = read_probe(alloc, bytes, first)?;
            let parts = read_each(alloc, bytes, rest, names, left, Items::new(alloc))?;
            if_of(alloc, probe, parts, at)
        }
        Head::When => {
            let probe = read_probe(alloc, bytes, first)?;
            let parts = read_each(alloc, bytes, rest, names, left, Items::new(alloc))?;
            when_of(alloc, probe, parts, at)
        }
        Head::FailIf => {
            let probe = read_probe(alloc, bytes, first)?;
            fail_if_of(bytes, probe, rest, at)
        }
        Head::Repeat => {
            let part = read_at(alloc, bytes, first, names, left)?;
            repeat_of(alloc, bytes, part, rest, at)
        }
        Head::UsingParams => {
            let part = read_at(alloc, bytes, first, names, left)?;
            params_of(alloc, bytes, part, rest, at)
        }
        Head::TryFor => {
            let part = read_at(alloc, bytes, first, names, left)?;
            try_for_of(alloc, bytes, part, rest, at)
        }
    }
}

/// The first argument and each of the others as a strategy.
#[cycle(strategy)]
fn read_all(
    alloc: Global,
    bytes: &[u8],
    first: &Sexp,
    rest: &[Sexp],
    names: Option<&[ReducerName]>,
    left: usize,
) -> Result<Items<Strategy>, StratError>
    ensures strategies { Gives result (spec.in_front (spec.read_strategy (option_copied names.entry) (form.form_of bytes.now first.now) left) (spec.read_each (option_copied names.entry) (form.forms_of bytes.now rest.now) left)) }
{
    let part = read_at(alloc, bytes, first, names, left)?;
    let mut parts = Items::new(alloc);
    parts.push(part)?;
    let parts = read_each(alloc, bytes, rest, names, left, parts)?;
    Ok(parts)
}

/// Each of the s-expressions as a strategy, behind those so far.
#[cycle(strategy)]
fn read_each(
    alloc: Global,
    bytes: &[u8],
    items: &[Sexp],
    names: Option<&[ReducerName]>,
    left: usize,
    front: Items<Strategy>,
) -> Result<Items<Strategy>, StratError>
    ensures strategies { Gives result (after front (spec.read_each (option_copied names.entry) (form.forms_of bytes.now items.now) left)) }
{
    let mut parts = front;
    for item in items {
        let part = read_at(alloc, bytes, item, names, left)?;
        parts.push(part)?;
    }
    Ok(parts)
}
