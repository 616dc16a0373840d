//! The ends of runs side by side: each makes the run of the whole `par-then`.
ghost use Rattle.std.specs.Prelude.{◌≡◌, ◌≤◌, ◌+◌, ◌++◌, ◌∷◌, [], ℕ, List, Option, true, max, length, None, IfOk, IfErr, IsOkAnd};
ghost use Rattle.qterm.specs.Tree.{Tree};
ghost use Rattle.qgoal.specs.declared.goal.Goal.{Goal};
ghost use Rattle.qgoal.specs.Goal.{HasGoal, goal_tree};
ghost use Rattle.strat_text.specs.declared.strategy.Strategy.{Strategy};
ghost use Rattle.strat_text.specs.declared.strategy.Strategy.TheVariants as strategy;
ghost use Rattle.race_word.specs.declared.place.Place.{Place};
ghost use Rattle.race_word.specs.declared.view.View.{View};
ghost use Rattle.deriv.specs.declared.params.Params.{Params};
ghost use Rattle.deriv.specs.Derives.{DEEPEST};
ghost use Rattle.lang_runs.specs.Runs.{Setting, IsRun, IsFailure, HasRun};
ghost use Rattle.lang_runs.specs.Drawn.{Tally, RunTally};
ghost use Rattle.lang_rows.specs.Rows.{is_sat_run};
ghost use Rattle.lang_rows.specs.Drawn.{BesideTally};
ghost use Rattle.lang_rows.specs.Beside.{AreBeside, IsNextBeside, AreAllDone, first_of};
ghost use Rattle.lang_rows.specs.Ends.{too_many};
ghost use Rattle.deriv.specs.declared.outcome.Outcome.TheVariants as outcome;
ghost use Rattle.lang_runs.specs.declared.ran.RunStop.TheVariants as stops;
ghost use Rattle.lang_rows.specs.BesideEnds.{par_deriv};

use crate::beside::{Beside, number};
use crate::ends::{Made, Parts, ran};
use crate::joined::{Joined, raise};
use crate::limits::{too_deep, too_many};
use crate::row::at;
use crate::ways::models_at;
use deriv::{Cause, Deriv, Node, Outcome, copy_goals};
use lang_runs::{Ran, RunStop, add};
use model_conv::{Discarded, ModelConv};
use proof_conv::ProofConv;
use qgoal::Goal;
use reducer_iface::rows_are_honest;
use sqlite_items::{Boxed, Items};
use std::alloc::{AllocError, Global};

/// The run whose first part failed.
pub fn beside_first_failed(
    alloc: Global,
    goal: Goal,
    limit: Option<u64>,
    first: Deriv,
) -> Result<Ran, RunStop>
    ensures run { (c : Setting) (ts : List Tree) (s p r : Strategy) (ps : Params) (n : ℕ) (chain : List Place) (v : View) → HasGoal ts goal → n ≤ DEEPEST → s ≡ strategy.ParThen p r → IsFailure c v.top ts p (goal_tree ts goal) limit ps (n + 1) first → HasRun c ts s (goal_tree ts goal) limit ps n chain v result }
    ensures draws { (old new : View) → Tally old new first → RunTally old new result }
{
    let out = first.out.copy(alloc)?;
    let rest = Items::new(alloc);
    let deriv = par_deriv(alloc, goal, limit, 0, out, first, rest)?;
    Err(RunStop::Failed(deriv))
}

/// The run whose second ran on all goals: the cause of the first that failed stands, or their goals are joined. More than 65,536 joined
/// goals are a failure, and so is a goal under more than 2,048 splits.
pub fn finish_beside(
    alloc: Global,
    goal: Goal,
    limit: Option<u64>,
    beside: Beside,
) -> Result<Ran, RunStop>
    ensures run { (c : Setting) (ts : List Tree) (s p r : Strategy) (ps : Params) (n : ℕ) (chain : List Place) (v : View) → HasGoal ts goal → n ≤ DEEPEST → s ≡ strategy.ParThen p r → AreBeside c v.top ts p r (goal_tree ts goal) limit ps (n + 1) beside → AreAllDone beside → HasRun c ts s (goal_tree ts goal) limit ps n chain v result }
    ensures draws { (old new : View) → BesideTally old new beside → RunTally old new result }
{
    rows_are_honest();
    let Beside {
        first,
        joined,
        derivs,
        cause,
        most,
        left: _,
    } = beside;
    let Ran {
        goals: _,
        above: _,
        models,
        proofs,
        deriv: first,
    } = first;
    let Joined {
        goals,
        above,
        models: each_models,
        proofs: each_proofs,
    } = joined;
    let parts = Parts {
        models,
        proofs,
        each_models,
        each_proofs,
    };
    match refused(cause, goals.len(), above.as_slice()) {
        Some(cause) => {
            parts.discard();
            let out = Outcome::Failed(cause);
            let deriv = par_deriv(alloc, goal, limit, most, out, first, derivs)?;
            Err(RunStop::Failed(deriv))
        }
        None => {
            let convs = parts.then(alloc);
            let made = made_all(alloc, goal, limit, most, goals, first, derivs);
            ran(made, above, convs)
        }
    }
}

/// The cause of the first failure, or why so many joined goals under so many splits are refused, where they are.
fn refused(cause: Option<Cause>, many: usize, above: &[u32]) -> Option<Cause>
    ensures { result ≡ first_of cause (too_many many above.now) }
{
    match cause {
        Some(cause) => Some(cause),
        None => too_many(many, above),
    }
}

/// The run that ends at a run of the second that is sat, whose goals are its own, where one worker runs all. A goal under more than 2,048
/// splits is a failure.
pub fn finish_beside_sat(
    alloc: Global,
    goal: Goal,
    limit: Option<u64>,
    beside: Beside,
    last: Ran,
) -> Result<Ran, RunStop>
    ensures run { (c : Setting) (ts : List Tree) (s p r : Strategy) (ps : Params) (n : ℕ) (chain : List Place) (v : View) (next : Goal) → HasGoal ts goal → n ≤ DEEPEST → c.workers ≤ 1 → s ≡ strategy.ParThen p r → AreBeside c v.top ts p r (goal_tree ts goal) limit ps (n + 1) beside → IsNextBeside beside next → IsRun c v.top ts r (goal_tree ts next) beside.left ps (n + 1) last → is_sat_run ts last ≡ true → HasRun c ts s (goal_tree ts goal) limit ps n chain v result }
    ensures draws { (before old new : View) → BesideTally before old beside → Tally old new last.deriv → RunTally before new result }
{
    let Beside {
        first,
        joined,
        derivs,
        cause: _,
        most,
        left: _,
    } = beside;
    joined.discard(Discarded::Lost);
    let place = derivs.len();
    let up = at(first.above.as_slice(), place);
    let Ran {
        goals: _,
        above: _,
        models: before,
        proofs: unused,
        deriv: first,
    } = first;
    unused.discard(Discarded::Refuted);
    let Ran {
        goals,
        above,
        models,
        proofs,
        deriv: last,
    } = last;
    proofs.discard(Discarded::Refuted);
    let models = models_at(alloc, before, place, models);
    let above = raise(Items::new(alloc), up, above.as_slice());
    match models {
        Ok(models) => match above {
            Ok(above) => match too_deep(above.as_slice()) {
                Some(cause) => {
                    models.discard(Discarded::Failed);
                    let out = Outcome::Failed(cause);
                    let deriv = by_last(alloc, goal, limit, most, out, first, derivs, last)?;
                    Err(RunStop::Failed(deriv))
                }
                None => {
                    let made = made_last(alloc, goal, limit, most, goals, first, derivs, last);
                    sat_ran(made, above, models)
                }
            },
            Err(_) => {
                models.discard(Discarded::Memory);
                Err(RunStop::Memory)
            }
        },
        Err(_) => Err(RunStop::Memory),
    }
}

/// The joined goals, with the derivation that came to them.
fn made_all(
    alloc: Global,
    goal: Goal,
    limit: Option<u64>,
    most: u64,
    goals: Items<Goal>,
    first: Deriv,
    rest: Items<(u32, Deriv)>,
) -> Result<Made, AllocError>
    ensures goals { IfOk result (λ d. d.goals ≡ goals) }
    ensures deriv { IfOk result (λ d. d.deriv ≡ par_deriv goal limit most (outcome.Done goals) first rest) }
{
    let out = Outcome::Done(copy_goals(alloc, goals.as_slice())?);
    let deriv = par_deriv(alloc, goal, limit, most, out, first, rest)?;
    Ok(Made { goals, deriv })
}

/// The goals of the last run, with the derivation that came to them.
fn made_last(
    alloc: Global,
    goal: Goal,
    limit: Option<u64>,
    most: u64,
    goals: Items<Goal>,
    first: Deriv,
    rest: Items<(u32, Deriv)>,
    last: Deriv,
) -> Result<Made, AllocError>
    ensures goals { IfOk result (λ d. d.goals ≡ goals) }
    ensures deriv { IfOk result (λ d. d.deriv ≡ par_deriv goal limit (max most last.spent) (outcome.Done goals) first (rest ++ (length rest, last) ∷ [])) }
{
    let out = Outcome::Done(copy_goals(alloc, goals.as_slice())?);
    let deriv = by_last(alloc, goal, limit, most, out, first, rest, last)?;
    Ok(Made { goals, deriv })
}

/// The success of these parts, where each is there. It can't be closed.
fn sat_ran(
    made: Result<Made, AllocError>,
    above: Items<u32>,
    models: ModelConv,
) -> Result<Ran, RunStop>
    ensures goals { IfOk result (λ r. IsOkAnd made (λ d. r.goals ≡ d.goals)) }
    ensures deriv { IfOk result (λ r. IsOkAnd made (λ d. r.deriv ≡ d.deriv)) }
    ensures above { IfOk result (λ r. r.above ≡ above) }
    ensures models { IfOk result (λ r. r.models ≡ models) }
    ensures plan { IfOk result (λ r. r.proofs.0 ≡ None) }
    ensures subgoals { IfOk result (λ r. r.proofs.1 ≡ length r.goals) }
    ensures stop { IfErr result (λ e. e ≡ stops.Memory) }
{
    match made {
        Ok(Made { goals, deriv }) => {
            let proofs = ProofConv::none(goals.len());
            Ok(Ran {
                goals,
                above,
                models,
                proofs,
                deriv,
            })
        }
        Err(_) => {
            models.discard(Discarded::Memory);
            Err(RunStop::Memory)
        }
    }
}

/// The derivation of a first part and of runs side by side behind it, of which the outcome of the last stands.
fn by_last(
    alloc: Global,
    goal: Goal,
    limit: Option<u64>,
    most: u64,
    out: Outcome,
    first: Deriv,
    rest: Items<(u32, Deriv)>,
    last: Deriv,
) -> Result<Deriv, AllocError>
    ensures { IfOk result (λ d. d ≡ par_deriv goal limit (max most last.spent) out first (rest ++ (length rest, last) ∷ [])) }
{
    let most = most.max(last.spent);
    let number = number(rest.len())?;
    let mut all = rest;
    all.push((number, last))?;
    let deriv = par_deriv(alloc, goal, limit, most, out, first, all)?;
    Ok(deriv)
}

/// The derivation of a first part and of runs side by side behind it, one of which spent so many lemmas and none more.
fn par_deriv(
    alloc: Global,
    goal: Goal,
    limit: Option<u64>,
    most: u64,
    out: Outcome,
    first: Deriv,
    rest: Items<(u32, Deriv)>,
) -> Result<Deriv, AllocError>
    ensures { IfOk result (λ d. d ≡ par_deriv goal limit most out first rest) }
{
    let spent = add(first.spent, most)?;
    let first = Boxed::new(alloc, first)?;
    Ok(Deriv {
        goal,
        limit,
        spent,
        out,
        node: Node::ParSeq { first, rest },
    })
}
