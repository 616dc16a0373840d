//! The ends of a row: each makes the run of the whole strategy.
ghost use Rattle.std.specs.Prelude.{◌≡◌, ◌≤◌, ◌<◌, ◌+◌, ◌++◌, ◌∷◌, [], ℕ, List, Option, None, true, nat_lt, slice_index_or, IfOk, IfErr, IsOkAnd};
ghost use Rattle.qterm.specs.Tree.{Tree};
ghost use Rattle.qgoal.specs.declared.goal.Goal.{Goal};
ghost use Rattle.qgoal.specs.Goal.{HasGoal, goal_tree};
ghost use Rattle.strat_text.specs.declared.strategy.Strategy.{Strategy};
ghost use Rattle.strat_text.specs.declared.strategy.Strategy.TheVariants as strategy;
ghost use Rattle.race_word.specs.declared.place.Place.{Place};
ghost use Rattle.race_word.specs.declared.view.View.{View};
ghost use Rattle.deriv.specs.declared.params.Params.{Params};
ghost use Rattle.deriv.specs.Outcome.{goal_trees};
ghost use Rattle.deriv.specs.Derives.{DEEPEST, Chains, GoesOn};
ghost use Rattle.lang_runs.specs.Runs.{Setting, IsRun, IsFailure, HasRun};
ghost use Rattle.lang_runs.specs.Drawn.{Tally as DerivTally, RunTally};
ghost use Rattle.lang_rows.specs.Rows.{IsRow, IsNext, IsWhole, is_sat_run};
ghost use Rattle.lang_rows.specs.Drawn.{RowTally};
ghost use Rattle.std.specs.Prelude.{Bool as Truth};
ghost use Rattle.deriv.specs.declared.outcome.Outcome.TheVariants as outcome;
ghost use Rattle.lang_runs.specs.declared.ran.RunStop.TheVariants as stops;
ghost use Rattle.model_conv.specs.Conv.{after_each};
ghost use Rattle.proof_conv.specs.Conv.{IsThen, all_plans, total};
ghost use Rattle.lang_rows.specs.Ends.{seq_deriv, AreThen};

use crate::joined::{Joined, discard_models, discard_proofs, raise};
use crate::limits::{too_deep, too_many};
use crate::row::{Row, Tally, at, tallied};
use crate::ways::models_at;
use deriv::{Deriv, Node, Outcome, copy_goals};
use lang_runs::{Ran, RunStop, discard};
use model_conv::{Discarded, ModelConv};
use proof_conv::ProofConv;
use qgoal::Goal;
use reducer_iface::rows_are_honest;
use sqlite_items::{Boxed, Items};
use std::alloc::{AllocError, Global};

/// The run whose first part failed.
pub fn first_failed(
    alloc: Global,
    goal: Goal,
    limit: Option<u64>,
    first: Deriv,
) -> Result<Ran, RunStop>
    ensures run { (c : Setting) (ts : List Tree) (s p r : Strategy) (turns : Truth) (ps : Params) (n : ℕ) (chain : List Place) (v : View) → HasGoal ts goal → n ≤ DEEPEST → Chains s p r turns → IsFailure c v.top ts p (goal_tree ts goal) limit ps (n + 1) first → HasRun c ts s (goal_tree ts goal) limit ps n chain v result }
    ensures draws { (old new : View) → DerivTally old new first → RunTally old new result }
{
    let deriv = alone(alloc, goal, limit, first)?;
    Err(RunStop::Failed(deriv))
}

/// The run of a repeat whose part gave the goal alone and unchanged.
pub fn rests(alloc: Global, goal: Goal, limit: Option<u64>, first: Ran) -> Result<Ran, RunStop>
    ensures run { (c : Setting) (ts : List Tree) (s p : Strategy) (turns : ℕ) (ps : Params) (n : ℕ) (chain : List Place) (v : View) → HasGoal ts goal → n ≤ DEEPEST → s ≡ strategy.Repeat p turns → 0 < turns → IsRun c v.top ts p (goal_tree ts goal) limit ps (n + 1) first → goal_trees ts first.goals ≡ goal_tree ts goal ∷ [] → HasRun c ts s (goal_tree ts goal) limit ps n chain v result }
    ensures draws { (old new : View) → DerivTally old new first.deriv → RunTally old new result }
{
    let Ran {
        goals,
        above,
        models,
        proofs,
        deriv,
    } = first;
    match alone(alloc, goal, limit, deriv) {
        Ok(deriv) => Ok(Ran {
            goals,
            above,
            models,
            proofs,
            deriv,
        }),
        Err(_) => {
            discard(models, proofs, Discarded::Memory);
            Err(RunStop::Memory)
        }
    }
}

/// The run whose rest ran on all goals: their goals are joined. More than 65,536 joined goals are a failure, and so is a goal under more
/// than 2,048 splits.
pub fn finish(alloc: Global, goal: Goal, limit: Option<u64>, row: Row) -> Result<Ran, RunStop>
    ensures run { (c : Setting) (ts : List Tree) (s p r : Strategy) (turns : Truth) (ps : Params) (n : ℕ) (chain : List Place) (v : View) → HasGoal ts goal → n ≤ DEEPEST → Chains s p r turns → GoesOn turns (goal_tree ts goal) (goal_trees ts row.first.goals) → IsRow c v.top ts p r (goal_tree ts goal) limit ps (n + 1) row → IsWhole row → HasRun c ts s (goal_tree ts goal) limit ps n chain v result }
    ensures draws { (old new : View) → RowTally old new row → RunTally old new result }
{
    rows_are_honest();
    let Row {
        first,
        joined,
        derivs,
        spent,
        left: _,
    } = row;
    let Ran {
        goals: _,
        above: _,
        models,
        proofs,
        deriv,
    } = first;
    let Joined {
        goals,
        above,
        models: each_models,
        proofs: each_proofs,
    } = joined;
    let parts = Parts {
        models,
        proofs,
        each_models,
        each_proofs,
    };
    match too_many(goals.len(), above.as_slice()) {
        Some(cause) => {
            parts.discard();
            let out = Outcome::Failed(cause);
            let deriv = seq_deriv(alloc, goal, limit, spent, out, deriv, derivs)?;
            Err(RunStop::Failed(deriv))
        }
        None => {
            let convs = parts.then(alloc);
            let done = succeeded(alloc, goal, limit, spent, goals, deriv, derivs);
            ran(done, above, convs)
        }
    }
}

/// The run that ends at a run of the rest that is sat, whose goals are its own. A goal under more than 2,048 splits is a failure.
pub fn finish_sat(
    alloc: Global,
    goal: Goal,
    limit: Option<u64>,
    row: Row,
    last: Ran,
) -> Result<Ran, RunStop>
    ensures run { (c : Setting) (ts : List Tree) (s p r : Strategy) (turns : Truth) (ps : Params) (n : ℕ) (chain : List Place) (v : View) (next : Goal) → HasGoal ts goal → n ≤ DEEPEST → Chains s p r turns → GoesOn turns (goal_tree ts goal) (goal_trees ts row.first.goals) → IsRow c v.top ts p r (goal_tree ts goal) limit ps (n + 1) row → IsNext row next → IsRun c v.top ts r (goal_tree ts next) row.left ps (n + 1) last → is_sat_run ts last ≡ true → HasRun c ts s (goal_tree ts goal) limit ps n chain v result }
    ensures draws { (before old new : View) → RowTally before old row → DerivTally old new last.deriv → RunTally before new result }
{
    rows_are_honest();
    let Row {
        first,
        joined,
        derivs,
        spent,
        left: _,
    } = row;
    joined.discard(Discarded::Lost);
    let place = derivs.len();
    let Ran {
        goals: _,
        above: ups,
        models,
        proofs,
        deriv,
    } = first;
    proofs.discard(Discarded::Refuted);
    let Ran {
        goals,
        above: below,
        models: last_models,
        proofs: last_proofs,
        deriv: last,
    } = last;
    last_proofs.discard(Discarded::Refuted);
    let before = Tally { derivs, spent };
    let up = at(ups.as_slice(), place);
    match raise(Items::new(alloc), up, below.as_slice()) {
        Ok(above) => match too_deep(above.as_slice()) {
            Some(cause) => {
                models.discard(Discarded::Failed);
                last_models.discard(Discarded::Failed);
                let out = Outcome::Failed(cause);
                let deriv = with_last(alloc, goal, limit, out, deriv, before, last)?;
                Err(RunStop::Failed(deriv))
            }
            None => {
                let convs = convs_at(alloc, models, place, last_models, goals.len());
                let done = ended(alloc, goal, limit, goals, deriv, before, last);
                ran(done, above, convs)
            }
        },
        Err(_) => {
            models.discard(Discarded::Memory);
            last_models.discard(Discarded::Memory);
            Err(RunStop::Memory)
        }
    }
}

/// The failure by that of the rest on a goal.
pub fn finish_failed(
    alloc: Global,
    goal: Goal,
    limit: Option<u64>,
    row: Row,
    last: Deriv,
) -> Result<Ran, RunStop>
    ensures run { (c : Setting) (ts : List Tree) (s p r : Strategy) (turns : Truth) (ps : Params) (n : ℕ) (chain : List Place) (v : View) (next : Goal) → HasGoal ts goal → n ≤ DEEPEST → Chains s p r turns → GoesOn turns (goal_tree ts goal) (goal_trees ts row.first.goals) → IsRow c v.top ts p r (goal_tree ts goal) limit ps (n + 1) row → IsNext row next → IsFailure c v.top ts r (goal_tree ts next) row.left ps (n + 1) last → HasRun c ts s (goal_tree ts goal) limit ps n chain v result }
    ensures draws { (before old new : View) → RowTally before old row → DerivTally old new last → RunTally before new result }
{
    let Row {
        first,
        joined,
        derivs,
        spent,
        left: _,
    } = row;
    joined.discard(Discarded::Failed);
    let Ran {
        goals: _,
        above: _,
        models,
        proofs,
        deriv,
    } = first;
    discard(models, proofs, Discarded::Failed);
    let deriv = by_last(alloc, goal, limit, spent, deriv, derivs, last)?;
    Err(RunStop::Failed(deriv))
}

/// The derivation of a first part alone, whose outcome stands.
fn alone(alloc: Global, goal: Goal, limit: Option<u64>, first: Deriv) -> Result<Deriv, AllocError>
    ensures { IfOk result (λ d. d ≡ seq_deriv goal limit first.spent first.out first []) }
{
    let spent = first.spent;
    let out = first.out.copy(alloc)?;
    let rest = Items::new(alloc);
    let deriv = seq_deriv(alloc, goal, limit, spent, out, first, rest)?;
    Ok(deriv)
}

/// The derivation of a first part with runs behind it, of which the outcome of the last stands.
fn by_last(
    alloc: Global,
    goal: Goal,
    limit: Option<u64>,
    spent: u64,
    first: Deriv,
    rest: Items<Deriv>,
    last: Deriv,
) -> Result<Deriv, AllocError>
    ensures { IfOk result (λ d. d ≡ seq_deriv goal limit (spent + last.spent) last.out first (rest ++ last ∷ [])) }
{
    let out = last.out.copy(alloc)?;
    let before = Tally {
        derivs: rest,
        spent,
    };
    let deriv = with_last(alloc, goal, limit, out, first, before, last)?;
    Ok(deriv)
}

/// The derivation of a first part with runs behind it and this last one.
fn with_last(
    alloc: Global,
    goal: Goal,
    limit: Option<u64>,
    out: Outcome,
    first: Deriv,
    before: Tally,
    last: Deriv,
) -> Result<Deriv, AllocError>
    ensures { IfOk result (λ d. d ≡ seq_deriv goal limit (before.spent + last.spent) out first (before.derivs ++ last ∷ [])) }
{
    let Tally { derivs, spent } = tallied(before, last)?;
    let deriv = seq_deriv(alloc, goal, limit, spent, out, first, derivs)?;
    Ok(deriv)
}

/// The derivation of a first part and of runs behind it.
fn seq_deriv(
    alloc: Global,
    goal: Goal,
    limit: Option<u64>,
    spent: u64,
    out: Outcome,
    first: Deriv,
    rest: Items<Deriv>,
) -> Result<Deriv, AllocError>
    ensures { IfOk result (λ d. d ≡ seq_deriv goal limit spent out first rest) }
{
    let first = Boxed::new(alloc, first)?;
    Ok(Deriv {
        goal,
        limit,
        spent,
        out,
        node: Node::Seq { first, rest },
    })
}

/// Goals with a derivation whose outcome they are.
#[derive(Drop)]
pub(crate) struct Made {
    pub(crate) goals: Items<Goal>,
    pub(crate) deriv: Deriv,
}

/// The goals with the derivation of a first part and of runs behind it that came to them.
fn succeeded(
    alloc: Global,
    goal: Goal,
    limit: Option<u64>,
    spent: u64,
    goals: Items<Goal>,
    first: Deriv,
    rest: Items<Deriv>,
) -> Result<Made, AllocError>
    ensures goals { IfOk result (λ d. d.goals ≡ goals) }
    ensures deriv { IfOk result (λ d. d.deriv ≡ seq_deriv goal limit spent (outcome.Done goals) first rest) }
{
    let out = Outcome::Done(copy_goals(alloc, goals.as_slice())?);
    let deriv = seq_deriv(alloc, goal, limit, spent, out, first, rest)?;
    Ok(Made { goals, deriv })
}

/// The goals of the last of the runs behind a first part with the derivation that came to them.
fn ended(
    alloc: Global,
    goal: Goal,
    limit: Option<u64>,
    goals: Items<Goal>,
    first: Deriv,
    before: Tally,
    last: Deriv,
) -> Result<Made, AllocError>
    ensures goals { IfOk result (λ d. d.goals ≡ goals) }
    ensures deriv { IfOk result (λ d. d.deriv ≡ seq_deriv goal limit (before.spent + last.spent) (outcome.Done goals) first (before.derivs ++ last ∷ [])) }
{
    let out = Outcome::Done(copy_goals(alloc, goals.as_slice())?);
    let deriv = with_last(alloc, goal, limit, out, first, before, last)?;
    Ok(Made { goals, deriv })
}

/// The success of these parts, where each is there.
pub(crate) fn ran(
    done: Result<Made, AllocError>,
    above: Items<u32>,
    convs: Result<Convs, AllocError>,
) -> Result<Ran, RunStop>
    ensures goals { IfOk result (λ r. IsOkAnd done (λ d. r.goals ≡ d.goals)) }
    ensures deriv { IfOk result (λ r. IsOkAnd done (λ d. r.deriv ≡ d.deriv)) }
    ensures above { IfOk result (λ r. r.above ≡ above) }
    ensures models { IfOk result (λ r. IsOkAnd convs (λ c. r.models ≡ c.models)) }
    ensures proofs { IfOk result (λ r. IsOkAnd convs (λ c. r.proofs ≡ c.proofs)) }
    ensures stop { IfErr result (λ e. e ≡ stops.Memory) }
{
    match convs {
        Ok(Convs { models, proofs }) => match done {
            Ok(Made { goals, deriv }) => Ok(Ran {
                goals,
                above,
                models,
                proofs,
                deriv,
            }),
            Err(_) => {
                discard(models, proofs, Discarded::Memory);
                Err(RunStop::Memory)
            }
        },
        Err(_) => Err(RunStop::Memory),
    }
}

/// The converters of a success, which have to be spent.
pub(crate) struct Convs {
    pub(crate) models: ModelConv,
    pub(crate) proofs: ProofConv,
}

/// The converters of a first part and of each run behind it, which have to be spent.
pub(crate) struct Parts {
    pub(crate) models: ModelConv,
    pub(crate) proofs: ProofConv,
    pub(crate) each_models: Vec<ModelConv>,
    pub(crate) each_proofs: Vec<ProofConv>,
}

impl Parts {
    /// As one. Where there isn't one for each goal of the first part, it counts as want of memory.
    pub(crate) fn then(self, alloc: Global) -> Result<Convs, AllocError>
        ensures { IfOk result (λ all. AreThen self.models self.proofs self.each_models.items self.each_proofs.items all.models all.proofs) }
    {
        let Parts {
            models,
            proofs,
            each_models,
            each_proofs,
        } = self;
        let models = models_then(alloc, models, each_models);
        let proofs = proofs_then(alloc, proofs, each_proofs);
        match models {
            Ok(models) => match proofs {
                Ok(proofs) => Ok(Convs { models, proofs }),
                Err(refused) => {
                    models.discard(Discarded::Memory);
                    Err(refused)
                }
            },
            Err(refused) => {
                if let Ok(proofs) = proofs {
                    proofs.discard(Discarded::Memory);
                }
                Err(refused)
            }
        }
    }

    /// Spends all without a use of them.
    pub(crate) fn discard(self) {
        let Parts {
            models,
            proofs,
            each_models,
            each_proofs,
        } = self;
        discard(models, proofs, Discarded::Failed);
        discard_models(each_models, Discarded::Failed);
        discard_proofs(each_proofs, Discarded::Failed);
    }
}

/// The converters of models as one, where there is one for each goal.
fn models_then(
    alloc: Global,
    first: ModelConv,
    each: Vec<ModelConv>,
) -> Result<ModelConv, AllocError>
    ensures { IfOk result (λ all. all ≡ after_each first each.items) }
{
    if each.len() == first.subgoals() {
        first.then_each(alloc, each)
    } else {
        first.discard(Discarded::Memory);
        discard_models(each, Discarded::Memory);
        Err(AllocError)
    }
}

/// The converters of certificates as one, where there is one for each goal.
fn proofs_then(
    alloc: Global,
    first: ProofConv,
    each: Vec<ProofConv>,
) -> Result<ProofConv, AllocError>
    ensures plan { IfOk result (λ all. IsThen first.0 (all_plans each.items) all.0) }
    ensures subgoals { IfOk result (λ all. all.1 ≡ total each.items) }
{
    if each.len() == first.subgoals() {
        first.then_each(alloc, each)
    } else {
        first.discard(Discarded::Memory);
        discard_proofs(each, Discarded::Memory);
        Err(AllocError)
    }
}

/// The converters at the goal of the first part at a place whose run is sat: no certificate comes of so many goals.
fn convs_at(
    alloc: Global,
    first: ModelConv,
    place: usize,
    last: ModelConv,
    many: usize,
) -> Result<Convs, AllocError>
    ensures models { IfOk result (λ all. all.models ≡ after_each (slice_index_or first place [] ∷ []) (last ∷ [])) }
    ensures plan { IfOk result (λ all. all.proofs.0 ≡ None) }
    ensures subgoals { IfOk result (λ all. all.proofs.1 ≡ many) }
{
    let models = models_at(alloc, first, place, last)?;
    Ok(Convs {
        models,
        proofs: ProofConv::none(many),
    })
}
