//! Whether there is a text of a strategy.
ghost use Rattle.std.specs.Prelude.{◌≡◌, ◌&&◌, nat_le, length};
ghost use Rattle.std.specs.List.{list_all};
ghost use Rattle.strat_text.specs.Allowed as spec;
ghost use Rattle.strat_text.specs.Number as numbers;
ghost use Rattle.strat_text.specs.Within.{fits};
ghost use Rattle.strat_text.specs.declared.strategy.TheConstants.{BRANCHES};

use crate::probe::ProbeExpr;
use crate::strategy::{BRANCHES, DEPTH, ParamKey, Strategy};
use sexp_read::is_simple_symbol;

/// Whether a strategy can be written: its names are simple symbols, each form has as many parts as it may, each number is
/// in its range, and at most 64 forms stand in one another.
#[tactic(auto, unfolding(crate::specs::Allowed::is_allowed, crate::specs::Within::fits))]
pub fn is_allowed(strategy: &Strategy) -> bool
    ensures { result ≡ spec.is_allowed strategy.now }
{
    fits_within(strategy, DEPTH)
}

// The same with another limit. No call nests deeper than that, but for those on probes.
#[cycle(strategy)]
fn fits_within(strategy: &Strategy, limit: usize) -> bool
    ensures { result ≡ fits strategy.now limit }
{
    if limit == 0 {
        return false;
    }
    let left = limit - 1;
    match strategy {
        Strategy::Prim(name) => is_simple_symbol(name.text()),
        Strategy::Then(parts) => both(parts.len() >= 2, all_fit(parts.as_slice(), left)),
        Strategy::OrElse(parts) => both(parts.len() >= 2, all_fit(parts.as_slice(), left)),
        Strategy::ParOr(parts) => both(is_branches(parts.len()), all_fit(parts.as_slice(), left)),
        Strategy::ParThen(first, second) => {
            both(
                fits_within(first.get(), left),
                fits_within(second.get(), left),
            )
        }
        Strategy::If(probe, yes, no) => {
            let parts = both(fits_within(yes.get(), left), fits_within(no.get(), left));
            both(is_allowed_probe(probe), parts)
        }
        Strategy::When(probe, part) => both(is_allowed_probe(probe), fits_within(part.get(), left)),
        Strategy::FailIf(probe) => is_allowed_probe(probe),
        Strategy::Repeat(part, turns) => both(fits_within(part.get(), left), *turns < 4294967296),
        Strategy::Params(part, settings) => {
            both(
                fits_within(part.get(), left),
                are_settings(settings.as_slice()),
            )
        }
        Strategy::TryFor(part, most) => {
            both(fits_within(part.get(), left), *most <= 4611686018427387904)
        }
    }
}

// Whether each strategy fits.
#[cycle(strategy)]
fn all_fit(parts: &[Strategy], left: usize) -> bool
    ensures { result ≡ list_all (λ s. fits s left) parts.now }
{
    for part in parts {
        if !fits_within(part, left) {
            return false;
        }
    }
    true
}

// Whether there is a text of a probe.
#[cycle(probe)]
fn is_allowed_probe(probe: &ProbeExpr) -> bool
    ensures { result ≡ spec.is_allowed_probe probe.now }
{
    match probe {
        // Each number of 128 bits has a text.
        ProbeExpr::Num(number) => {
            let _number = *number;
            true
        }
        ProbeExpr::Lt(left, right) => {
            both(is_allowed_probe(left.get()), is_allowed_probe(right.get()))
        }
        ProbeExpr::Le(left, right) => {
            both(is_allowed_probe(left.get()), is_allowed_probe(right.get()))
        }
        ProbeExpr::Gt(left, right) => {
            both(is_allowed_probe(left.get()), is_allowed_probe(right.get()))
        }
        ProbeExpr::Ge(left, right) => {
            both(is_allowed_probe(left.get()), is_allowed_probe(right.get()))
        }
        ProbeExpr::Eq(left, right) => {
            both(is_allowed_probe(left.get()), is_allowed_probe(right.get()))
        }
        ProbeExpr::And(parts) => both(parts.len() >= 1, are_allowed(parts.as_slice())),
        ProbeExpr::Or(parts) => both(parts.len() >= 1, are_allowed(parts.as_slice())),
        ProbeExpr::Not(part) => is_allowed_probe(part.get()),
        ProbeExpr::Size
        | ProbeExpr::NumExprs
        | ProbeExpr::Depth
        | ProbeExpr::NumConsts
        | ProbeExpr::IsPropositional
        | ProbeExpr::IsCanonical
        | ProbeExpr::IsBounded
        | ProbeExpr::Is01
        | ProbeExpr::MaxBits => true,
    }
}

// Whether there is a text of each probe.
#[cycle(probe)]
fn are_allowed(parts: &[ProbeExpr]) -> bool
    ensures { result ≡ list_all spec.is_allowed_probe parts.now }
{
    for part in parts {
        if !is_allowed_probe(part) {
            return false;
        }
    }
    true
}

// Whether there are settings, and the value of each is in its range.
fn are_settings(settings: &[(ParamKey, i128)]) -> bool
    ensures { result ≡ (nat_le 1 (length settings.now) && spec.are_settings settings.now) }
{
    both(settings.len() >= 1, all_within(settings))
}

fn all_within(settings: &[(ParamKey, i128)]) -> bool
    ensures { result ≡ spec.are_settings settings.now }
{
    for setting in settings {
        if !is_within(setting) {
            return false;
        }
    }
    true
}

// Whether the value of a parameter is in its range.
fn is_within(setting: &(ParamKey, i128)) -> bool
    ensures { result ≡ numbers.is_within setting.now.0 setting.now.1 }
{
    let (key, value) = *setting;
    match key {
        ParamKey::Lia2pbMaxBits => 1 <= value && value <= 64,
        ParamKey::AddBoundLower => value > i128::MIN,
        ParamKey::AddBoundUpper => value > i128::MIN,
        ParamKey::DropWideMax => 0 <= value && value <= 1 << 20,
    }
}

// Whether a `par-or` may have so many branches.
fn is_branches(count: usize) -> bool
    ensures { result ≡ (nat_le 2 count && nat_le count BRANCHES) }
{
    2 <= count && count <= BRANCHES
}

fn both(a: bool, b: bool) -> bool
    ensures { result ≡ (a && b) }
{
    a && b
}
