//! Nodes of reducers.
ghost use Rattle.std.specs.Prelude.{◌≡◌, ◌≤◌, ℕ, ℤ, List, Option, Some, Ok, IfOk};
ghost use Rattle.qterm.specs.Tree.{Tree};
ghost use Rattle.qgoal.specs.Goal.{HasGoal, goal_tree};
ghost use Rattle.strat_text.specs.declared.strategy.Strategy.TheVariants as strategy;
ghost use Rattle.race_word.specs.declared.place.Place.{Place};
ghost use Rattle.race_word.specs.declared.view.View.{View};
ghost use Rattle.race_word.specs.Runner.{Runner};
ghost use Rattle.race_word.specs.Keeps.{Keeps};
ghost use Rattle.deriv.specs.Derives.{DEEPEST};
ghost use Rattle.reducer_iface.specs.declared.env.Env.{Env};
ghost use Rattle.reducer_iface.specs.Allowed.{IsAllowed, Draws};
ghost use Rattle.deriv.specs.Above.{is_split};
ghost use Rattle.proof_conv.specs.Leads.{for_each};
ghost use Rattle.lang_runs.specs.Runs.{Setting, HasRun};
ghost use Rattle.lang_runs.specs.Nodes.{IsPrim};
ghost use Rattle.lang_runs.specs.Drawn.{RunTally};

use crate::ran::{Ran, RunStop, discard};
use deriv::{Deriv, Kind, Node, Outcome, copy_goals};
use model_conv::{Discarded, LiftStep, ModelConv};
use qgoal::Goal;
use reducer_iface::{Applied, Stop};
use sqlite_items::Items;
use std::alloc::{AllocError, Global};
use strat_text::ReducerName;

/// The run of a reducer of this kind by its name, from what it answered.
pub fn prim(
    alloc: Global,
    goal: Goal,
    name: ReducerName,
    kind: Kind,
    limit: Option<u64>,
    answer: Result<Applied, Stop>,
) -> Result<Ran, RunStop>
    ensures run { (c : Setting) (ts : List Tree) (env : Env) (n : ℕ) (chain : List Place) (v : View) → HasGoal ts goal → n ≤ DEEPEST → env.limit ≡ limit → env.pool ≡ c.pool → c.kinds name ≡ Some kind → IsAllowed kind ts (goal_tree ts goal) env chain v answer → HasRun c ts (strategy.Prim name) (goal_tree ts goal) limit env.params n chain v result }
    ensures draws { (old new : Runner) → Keeps old new → Draws kind old new answer → RunTally old.view new.view result }
{
    reduced(alloc, goal, name, kind, limit, answer)
}

/// The answer as a run, kept in a node.
fn reduced(
    alloc: Global,
    goal: Goal,
    name: ReducerName,
    kind: Kind,
    limit: Option<u64>,
    answer: Result<Applied, Stop>,
) -> Result<Ran, RunStop>
    ensures { IsPrim goal name kind limit answer result }
{
    match answer {
        Ok(applied) => keep(alloc, goal, name, kind, limit, applied),
        Err(Stop::Fail { cause, lemmas }) => Err(RunStop::Failed(Deriv {
            goal,
            limit,
            spent: lemmas,
            out: Outcome::Failed(cause),
            node: Node::Prim {
                name,
                lifts: Items::new(alloc),
            },
        })),
        Err(Stop::Cancelled { seen, lemmas: _ }) => Err(RunStop::Cancelled { seen }),
        Err(Stop::Memory) => Err(RunStop::Memory),
    }
}

/// Keeps a success.
fn keep(
    alloc: Global,
    goal: Goal,
    name: ReducerName,
    kind: Kind,
    limit: Option<u64>,
    applied: Applied,
) -> Result<Ran, RunStop>
    ensures { IsPrim goal name kind limit (Ok applied) result }
{
    let Applied {
        goals,
        models,
        proofs,
        lemmas,
    } = applied;
    match copies(alloc, kind, goals.as_slice(), &models) {
        Ok((out, lifts, above)) => Ok(Ran {
            goals,
            above,
            models,
            proofs,
            deriv: Deriv {
                goal,
                limit,
                spent: lemmas,
                out: Outcome::Done(out),
                node: Node::Prim { name, lifts },
            },
        }),
        Err(_) => {
            discard(models, proofs, Discarded::Memory);
            Err(RunStop::Memory)
        }
    }
}

/// Copies of the goals and of the steps of lifting, and the splits above each goal.
fn copies(
    alloc: Global,
    kind: Kind,
    goals: &[Goal],
    models: &ModelConv,
) -> Result<(Items<Goal>, Items<Items<LiftStep>>, Items<u32>), AllocError>
    ensures { IfOk result (λ r. (r.0 ≡ goals.now) × (r.1 ≡ models.now) × (r.2 ≡ for_each (is_split (Some kind)) goals.now)) }
{
    let out = copy_goals(alloc, goals)?;
    let lifts = all_steps(alloc, models)?;
    let above = alike(alloc, split_count(kind), goals)?;
    Ok((out, lifts, above))
}

/// The steps of lifting, a list for each subgoal.
fn all_steps(alloc: Global, models: &ModelConv) -> Result<Items<Items<LiftStep>>, AllocError>
    ensures { IfOk result (λ lists. lists ≡ models.now) }
{
    let mut lists = Items::new(alloc);
    for i in 0..models.subgoals() {
        lists.push(models.steps(alloc, i)?)?;
    }
    Ok(lists)
}

/// The same number for each goal.
fn alike(alloc: Global, count: u32, goals: &[Goal]) -> Result<Items<u32>, AllocError>
    ensures { IfOk result (λ counts. counts ≡ for_each count goals.now) }
{
    let mut counts = Items::new(alloc);
    for _goal in goals {
        counts.push(count)?;
    }
    Ok(counts)
}

/// How many splits a reducer of the kind puts above each of its goals at most.
fn split_count(kind: Kind) -> u32
    ensures { result ≡ is_split (Some kind) }
{
    match kind {
        Kind::SplitClause | Kind::Custom => 1,
        _ => 0,
    }
}
