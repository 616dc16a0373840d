//! Nodes without a child.
ghost use Rattle.std.specs.Prelude.{◌≡◌, ◌≤◌, ◌+◌, ◌∷◌, [], ℕ, List, IfOk};
ghost use Rattle.qterm.specs.Tree.{Tree};
ghost use Rattle.qgoal.specs.Goal.{HasGoal, goal_tree};
ghost use Rattle.strat_text.specs.declared.strategy.Strategy.{Strategy};
ghost use Rattle.race_word.specs.declared.place.Place.{Place};
ghost use Rattle.race_word.specs.declared.view.View.{View};
ghost use Rattle.deriv.specs.declared.params.Params.{Params};
ghost use Rattle.deriv.specs.Derives.{DEEPEST};
ghost use Rattle.reducer_iface.specs.Depths.{IsShallow};
ghost use Rattle.lang_runs.specs.Runs.{Setting, HasRun};
ghost use Rattle.lang_runs.specs.Forms.{RestsAlone, IsTold};
ghost use Rattle.lang_runs.specs.Nodes.{IsAlone, alone_deriv, told_deriv, stopped_deriv};
ghost use Rattle.lang_runs.specs.Drawn.{RunTally};

use crate::ran::{Ran, RunStop};
use deriv::{Cause, Deriv, Node, Outcome};
use model_conv::{Discarded, ModelConv};
use proof_conv::ProofConv;
use qgoal::Goal;
use sqlite_items::Items;
use std::alloc::{AllocError, Global};

/// A copy of a goal.
pub fn copied(goal: &Goal) -> Result<Goal, AllocError>
    ensures { IfOk result (λ copy. copy ≡ goal.now) }
{
    let copy = goal.clone()?;
    Ok(copy)
}

/// The run that gives the goal alone, by a test with this value.
pub fn rests_alone(
    alloc: Global,
    goal: &Goal,
    limit: Option<u64>,
    value: i128,
) -> Result<Ran, RunStop>
    ensures run { (c : Setting) (ts : List Tree) (s : Strategy) (ps : Params) (n : ℕ) (chain : List Place) (v : View) → HasGoal ts goal.now → IsShallow (goal_tree ts goal.now) → n ≤ DEEPEST → RestsAlone c (goal_tree ts goal.now) value s → HasRun c ts s (goal_tree ts goal.now) limit ps n chain v result }
    ensures draws { (view : View) → RunTally view view result }
{
    let ran = alone(alloc, goal, limit, value)?;
    Ok(ran)
}

/// The goal alone, after a test with this value.
fn alone(alloc: Global, goal: &Goal, limit: Option<u64>, value: i128) -> Result<Ran, AllocError>
    ensures { IfOk result (λ ran. IsAlone goal.now limit value ran) }
{
    let deriv = alone_deriv(alloc, goal, limit, value)?;
    let goals = one(alloc, goal)?;
    let above = no_split(alloc)?;
    let models = ModelConv::id(alloc)?;
    match ProofConv::id(alloc) {
        Ok(proofs) => Ok(Ran {
            goals,
            above,
            models,
            proofs,
            deriv,
        }),
        Err(_) => {
            models.discard(Discarded::Memory);
            Err(AllocError)
        }
    }
}

/// The derivation that gives the goal alone.
fn alone_deriv(
    alloc: Global,
    goal: &Goal,
    limit: Option<u64>,
    value: i128,
) -> Result<Deriv, AllocError>
    ensures { IfOk result (λ d. d ≡ alone_deriv goal.now limit value) }
{
    let kept = copied(goal)?;
    let goals = one(alloc, goal)?;
    Ok(Deriv {
        goal: kept,
        limit,
        spent: 0,
        out: Outcome::Done(goals),
        node: Node::Test { value, child: None },
    })
}

/// The goal as a row of one.
fn one(alloc: Global, goal: &Goal) -> Result<Items<Goal>, AllocError>
    ensures { IfOk result (λ goals. goals ≡ goal.now ∷ []) }
{
    let mut goals = Items::new(alloc);
    goals.push(goal.clone()?)?;
    Ok(goals)
}

/// No split above one goal.
fn no_split(alloc: Global) -> Result<Items<u32>, AllocError>
    ensures { IfOk result (λ above. above ≡ 0 ∷ []) }
{
    let mut above = Items::new(alloc);
    above.push(0)?;
    Ok(above)
}

/// The failure by a test with this value.
pub fn told(goal: &Goal, limit: Option<u64>, value: i128) -> Result<Ran, RunStop>
    ensures run { (c : Setting) (ts : List Tree) (s : Strategy) (ps : Params) (n : ℕ) (chain : List Place) (v : View) → HasGoal ts goal.now → n ≤ DEEPEST → IsTold c (goal_tree ts goal.now) value s → HasRun c ts s (goal_tree ts goal.now) limit ps n chain v result }
    ensures draws { (view : View) → RunTally view view result }
{
    let deriv = told_deriv(goal, limit, value)?;
    Err(RunStop::Failed(deriv))
}

/// The derivation that failed by a test.
fn told_deriv(goal: &Goal, limit: Option<u64>, value: i128) -> Result<Deriv, AllocError>
    ensures { IfOk result (λ d. d ≡ told_deriv goal.now limit value) }
{
    Ok(Deriv {
        goal: goal.clone()?,
        limit,
        spent: 0,
        out: Outcome::Failed(Cause::Told),
        node: Node::Test { value, child: None },
    })
}

/// The failure of what would stand deeper than a derivation goes.
pub fn stopped(goal: &Goal, limit: Option<u64>) -> Result<Ran, RunStop>
    ensures run { (c : Setting) (ts : List Tree) (s : Strategy) (ps : Params) (n : ℕ) (chain : List Place) (v : View) → HasGoal ts goal.now → n ≡ DEEPEST + 1 → HasRun c ts s (goal_tree ts goal.now) limit ps n chain v result }
    ensures draws { (view : View) → RunTally view view result }
{
    let deriv = stopped_deriv(goal, limit)?;
    Err(RunStop::Failed(deriv))
}

/// The derivation that wasn't run.
fn stopped_deriv(goal: &Goal, limit: Option<u64>) -> Result<Deriv, AllocError>
    ensures { IfOk result (λ d. d ≡ stopped_deriv goal.now limit) }
{
    Ok(Deriv {
        goal: goal.clone()?,
        limit,
        spent: 0,
        out: Outcome::Failed(Cause::TooDeep),
        node: Node::Stopped,
    })
}
