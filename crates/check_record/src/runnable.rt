//! Whether a strategy may run.
ghost use Rattle.std.specs.Prelude.{◌≡◌, ◌&&◌, nat_le, length};
ghost use Rattle.std.specs.List.{list_all};
ghost use Rattle.strat_text.specs.Allowed.{are_settings};
ghost use Rattle.strat_text.specs.Number.{is_within};
ghost use Rattle.lang_runs.specs.Strategies.{runs};

use reducer_iface::Reducers;
use strat_text::{ParamKey, Strategy};

/// Whether a check may run the strategy: its names are there, its forms have as many parts as they must, and its settings are in range.
///
/// The calls nest as deep as the strategy does.
pub fn can_run<R: Reducers>(reducers: &R, strategy: &Strategy) -> bool
    ensures { result ≡ runs (R.kinds reducers.now) strategy.now }
{
    runs(reducers, strategy)
}

#[cycle(strategy)]
fn runs<R: Reducers>(reducers: &R, strategy: &Strategy) -> bool
    ensures { result ≡ runs (R.kinds reducers.now) strategy.now }
{
    match strategy {
        Strategy::Prim(name) => reducers.kind(name).is_some(),
        Strategy::Then(parts) => both(parts.len() >= 2, all_run(reducers, parts.as_slice())),
        Strategy::OrElse(parts) => both(parts.len() >= 2, all_run(reducers, parts.as_slice())),
        Strategy::ParOr(parts) => both(parts.len() >= 2, all_run(reducers, parts.as_slice())),
        Strategy::ParThen(first, second) => {
            both(runs(reducers, first.get()), runs(reducers, second.get()))
        }
        Strategy::If(_, yes, no) => both(runs(reducers, yes.get()), runs(reducers, no.get())),
        Strategy::When(_, part) => runs(reducers, part.get()),
        Strategy::FailIf(_) => true,
        Strategy::Repeat(part, _) => runs(reducers, part.get()),
        Strategy::Params(part, settings) => {
            both(
                runs(reducers, part.get()),
                are_settings(settings.as_slice()),
            )
        }
        Strategy::TryFor(part, _) => runs(reducers, part.get()),
    }
}

/// Whether each strategy may run.
#[cycle(strategy)]
fn all_run<R: Reducers>(reducers: &R, parts: &[Strategy]) -> bool
    ensures { result ≡ list_all (runs (R.kinds reducers.now)) parts.now }
{
    for part in parts {
        if !runs(reducers, part) {
            return false;
        }
    }
    true
}

/// Whether the value of each setting is in its range.
fn are_settings(settings: &[(ParamKey, i128)]) -> bool
    ensures { result ≡ are_settings settings.now }
{
    for setting in settings {
        if !is_within(setting) {
            return false;
        }
    }
    true
}

/// Whether the value of a parameter is in its range.
fn is_within(setting: &(ParamKey, i128)) -> bool
    ensures { result ≡ is_within setting.now.0 setting.now.1 }
{
    let (key, value) = *setting;
    match key {
        ParamKey::Lia2pbMaxBits => 1 <= value && value <= 64,
        ParamKey::AddBoundLower => value > i128::MIN,
        ParamKey::AddBoundUpper => value > i128::MIN,
        ParamKey::DropWideMax => 0 <= value && value <= 1 << 20,
    }
}

fn both(a: bool, b: bool) -> bool
    ensures { result ≡ (a && b) }
{
    a && b
}
