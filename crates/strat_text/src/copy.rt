//! Copies of strategies and probes.
//!
//! The calls on a strategy nest as deep as the strategy does, and those on a probe as deep as the probe.
ghost use Rattle.std.specs.Prelude.{◌≡◌, IfOk};

use crate::probe::ProbeExpr;
use crate::strategy::{ParamKey, Strategy};
use sqlite_items::{Boxed, Items};
use std::alloc::{AllocError, Global};

impl Strategy {
    /// The same strategy.
    pub fn copy(&self, alloc: Global) -> Result<Strategy, AllocError>
        ensures { IfOk result (λ copied. copied ≡ self.now) }
    {
        let copied = copy_strategy(alloc, self)?;
        Ok(copied)
    }
}

impl ProbeExpr {
    /// The same probe.
    pub fn copy(&self, alloc: Global) -> Result<ProbeExpr, AllocError>
        ensures { IfOk result (λ copied. copied ≡ self.now) }
    {
        let copied = copy_probe(alloc, self)?;
        Ok(copied)
    }
}

#[cycle(strategy)]
fn copy_strategy(alloc: Global, strategy: &Strategy) -> Result<Strategy, AllocError>
    ensures { IfOk result (λ copied. copied ≡ strategy.now) }
{
    match strategy {
        Strategy::Prim(name) => Ok(Strategy::Prim(name.clone()?)),
        Strategy::Then(parts) => Ok(Strategy::Then(copy_strategies(alloc, parts.as_slice())?)),
        Strategy::OrElse(parts) => Ok(Strategy::OrElse(copy_strategies(alloc, parts.as_slice())?)),
        Strategy::ParOr(parts) => Ok(Strategy::ParOr(copy_strategies(alloc, parts.as_slice())?)),
        Strategy::ParThen(first, second) => {
            let first = copy_boxed(alloc, first.get())?;
            let second = copy_boxed(alloc, second.get())?;
            Ok(Strategy::ParThen(first, second))
        }
        Strategy::If(probe, yes, no) => {
            let probe = copy_probe(alloc, probe)?;
            let yes = copy_boxed(alloc, yes.get())?;
            let no = copy_boxed(alloc, no.get())?;
            Ok(Strategy::If(probe, yes, no))
        }
        Strategy::When(probe, part) => {
            let probe = copy_probe(alloc, probe)?;
            Ok(Strategy::When(probe, copy_boxed(alloc, part.get())?))
        }
        Strategy::FailIf(probe) => Ok(Strategy::FailIf(copy_probe(alloc, probe)?)),
        Strategy::Repeat(part, turns) => Ok(Strategy::Repeat(
            copy_boxed(alloc, part.get())?,
            *turns,
        )),
        Strategy::Params(part, settings) => {
            let part = copy_boxed(alloc, part.get())?;
            Ok(Strategy::Params(part, copy_settings(alloc, settings.as_slice())?))
        }
        Strategy::TryFor(part, most) => Ok(Strategy::TryFor(copy_boxed(alloc, part.get())?, *most)),
    }
}

#[cycle(strategy)]
fn copy_boxed(alloc: Global, strategy: &Strategy) -> Result<Boxed<Strategy>, AllocError>
    ensures { IfOk result (λ copied. copied ≡ strategy.now) }
{
    let copied = copy_strategy(alloc, strategy)?;
    Ok(Boxed::new(alloc, copied)?)
}

#[cycle(strategy)]
fn copy_strategies(alloc: Global, parts: &[Strategy]) -> Result<Items<Strategy>, AllocError>
    ensures { IfOk result (λ copied. copied ≡ parts.now) }
{
    let mut copied = Items::new(alloc);
    for part in parts {
        copied.push(copy_strategy(alloc, part)?)?;
    }
    Ok(copied)
}

fn copy_settings(
    alloc: Global,
    settings: &[(ParamKey, i128)],
) -> Result<Items<(ParamKey, i128)>, AllocError>
    ensures { IfOk result (λ copied. copied ≡ settings.now) }
{
    let copied = Items::from_slice(alloc, settings)?;
    Ok(copied)
}

#[cycle(probe)]
fn copy_probe(alloc: Global, probe: &ProbeExpr) -> Result<ProbeExpr, AllocError>
    ensures { IfOk result (λ copied. copied ≡ probe.now) }
{
    match probe {
        ProbeExpr::Size => Ok(ProbeExpr::Size),
        ProbeExpr::NumExprs => Ok(ProbeExpr::NumExprs),
        ProbeExpr::Depth => Ok(ProbeExpr::Depth),
        ProbeExpr::NumConsts => Ok(ProbeExpr::NumConsts),
        ProbeExpr::IsPropositional => Ok(ProbeExpr::IsPropositional),
        ProbeExpr::IsCanonical => Ok(ProbeExpr::IsCanonical),
        ProbeExpr::IsBounded => Ok(ProbeExpr::IsBounded),
        ProbeExpr::Is01 => Ok(ProbeExpr::Is01),
        ProbeExpr::MaxBits => Ok(ProbeExpr::MaxBits),
        ProbeExpr::Num(number) => Ok(ProbeExpr::Num(*number)),
        ProbeExpr::Lt(left, right) => {
            let left = copy_boxed_probe(alloc, left.get())?;
            Ok(ProbeExpr::Lt(left, copy_boxed_probe(alloc, right.get())?))
        }
        ProbeExpr::Le(left, right) => {
            let left = copy_boxed_probe(alloc, left.get())?;
            Ok(ProbeExpr::Le(left, copy_boxed_probe(alloc, right.get())?))
        }
        ProbeExpr::Gt(left, right) => {
            let left = copy_boxed_probe(alloc, left.get())?;
            Ok(ProbeExpr::Gt(left, copy_boxed_probe(alloc, right.get())?))
        }
        ProbeExpr::Ge(left, right) => {
            let left = copy_boxed_probe(alloc, left.get())?;
            Ok(ProbeExpr::Ge(left, copy_boxed_probe(alloc, right.get())?))
        }
        ProbeExpr::Eq(left, right) => {
            let left = copy_boxed_probe(alloc, left.get())?;
            Ok(ProbeExpr::Eq(left, copy_boxed_probe(alloc, right.get())?))
        }
        ProbeExpr::And(parts) => Ok(ProbeExpr::And(copy_probes(alloc, parts.as_slice())?)),
        ProbeExpr::Or(parts) => Ok(ProbeExpr::Or(copy_probes(alloc, parts.as_slice())?)),
        ProbeExpr::Not(part) => Ok(ProbeExpr::Not(copy_boxed_probe(alloc, part.get())?)),
    }
}

#[cycle(probe)]
fn copy_boxed_probe(alloc: Global, probe: &ProbeExpr) -> Result<Boxed<ProbeExpr>, AllocError>
    ensures { IfOk result (λ copied. copied ≡ probe.now) }
{
    let copied = copy_probe(alloc, probe)?;
    Ok(Boxed::new(alloc, copied)?)
}

#[cycle(probe)]
fn copy_probes(alloc: Global, parts: &[ProbeExpr]) -> Result<Items<ProbeExpr>, AllocError>
    ensures { IfOk result (λ copied. copied ≡ parts.now) }
{
    let mut copied = Items::new(alloc);
    for part in parts {
        copied.push(copy_probe(alloc, part)?)?;
    }
    Ok(copied)
}
