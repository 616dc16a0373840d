//! Parts that are tried in order.
ghost use Rattle.std.specs.Prelude.{◌≡◌, ◌≤◌, ◌+◌, ◌++◌, ◌∷◌, [], ℕ, List, Option, length, Ok, IfOk, IfErr};
ghost use Rattle.qterm.specs.Tree.{Tree};
ghost use Rattle.qgoal.specs.Goal.{GoalTree, HasGoal, goal_tree};
ghost use Rattle.strat_text.specs.declared.strategy.Strategy.{Strategy};
ghost use Rattle.race_word.specs.declared.place.Place.{Place};
ghost use Rattle.race_word.specs.declared.view.View.{View};
ghost use Rattle.deriv.specs.declared.params.Params.{Params};
ghost use Rattle.deriv.specs.Derives.{DEEPEST, InOrder};
ghost use Rattle.lang_runs.specs.declared.ran.RunStop.TheVariants as stops;
ghost use Rattle.lang_runs.specs.Runs.{Setting, IsRun, IsFailure, HasRun};
ghost use Rattle.deriv.specs.declared.outcome.Outcome.TheVariants as outcome;
ghost use Rattle.lang_runs.specs.Forms.{AreTried};
ghost use Rattle.lang_runs.specs.Nodes.{IsTried, tried_deriv, IsTriedAll, IsFirstCause};
ghost use Rattle.lang_runs.specs.Drawn.{Tally, FailuresTally, RunTally};

use crate::ran::{Ran, RunStop, discard};
use crate::sums::{add, remains};
use deriv::{Cause, Deriv, Node, Outcome};
use model_conv::Discarded;
use qgoal::Goal;
use sqlite_items::{Boxed, Items};
use std::alloc::{AllocError, Global};

/// Parts that failed in order on one goal.
#[derive(Drop)]
pub struct Failures {
    /// Their derivations.
    pub derivs: Items<Deriv>,
    /// How many lemmas they spent.
    pub spent: u64,
    /// What is left of the limit.
    pub left: Option<u64>,
}

impl Failures {
    /// No part yet.
    pub fn new(alloc: Global, limit: Option<u64>) -> Failures
        ensures tried { (c : Setting) (top : ℕ) (ts : List Tree) (g : GoalTree) (ps : Params) (n : ℕ) → AreTried c top ts [] g limit ps n result }
        ensures draws { (view : View) → FailuresTally view view result }
    {
        Failures {
            derivs: Items::new(alloc),
            spent: 0,
            left: limit,
        }
    }

    /// The parts with one more behind them, which failed. Sums past 64 bits count as want of memory.
    pub fn with(self, deriv: Deriv) -> Result<Failures, RunStop>
        ensures tried { (c : Setting) (top : ℕ) (ts : List Tree) (parts : List Strategy) (part : Strategy) (g : GoalTree) (l : Option ℕ) (ps : Params) (n : ℕ) → AreTried c top ts parts g l ps n self → IsFailure c top ts part g self.left ps n deriv → (more : Failures) → result ≡ Ok more → AreTried c top ts (parts ++ part ∷ []) g l ps n more }
        ensures draws { (before old new : View) → FailuresTally before old self → Tally old new deriv → (more : Failures) → result ≡ Ok more → FailuresTally before new more }
        ensures refused { IfErr result (λ stop. stop ≡ stops.Memory) }
    {
        let Failures {
            mut derivs,
            spent,
            left,
        } = self;
        let spent = add(spent, deriv.spent)?;
        let left = remains(left, deriv.spent);
        derivs.push(deriv)?;
        Ok(Failures {
            derivs,
            spent,
            left,
        })
    }
}

/// The run whose next part succeeded.
pub fn tried(
    alloc: Global,
    goal: Goal,
    limit: Option<u64>,
    failures: Failures,
    ran: Ran,
) -> Result<Ran, RunStop>
    ensures run { (c : Setting) (ts : List Tree) (s part : Strategy) (parts others : List Strategy) (ps : Params) (n : ℕ) (chain : List Place) (v : View) → HasGoal ts goal → n ≤ DEEPEST → InOrder s (parts ++ part ∷ others) → AreTried c v.top ts parts (goal_tree ts goal) limit ps (n + 1) failures → IsRun c v.top ts part (goal_tree ts goal) failures.left ps (n + 1) ran → HasRun c ts s (goal_tree ts goal) limit ps n chain v result }
    ensures draws { (before old new : View) → FailuresTally before old failures → Tally old new ran.deriv → RunTally before new result }
{
    after_failures(alloc, goal, limit, failures, ran)
}

/// The part's run with a node around its derivation and those of the failures.
fn after_failures(
    alloc: Global,
    goal: Goal,
    limit: Option<u64>,
    failures: Failures,
    ran: Ran,
) -> Result<Ran, RunStop>
    ensures { IsTried goal limit failures ran result }
{
    let Ran {
        goals,
        above,
        models,
        proofs,
        deriv,
    } = ran;
    match tried_deriv(alloc, goal, limit, failures, deriv) {
        Ok(deriv) => Ok(Ran {
            goals,
            above,
            models,
            proofs,
            deriv,
        }),
        Err(_) => {
            discard(models, proofs, Discarded::Memory);
            Err(RunStop::Memory)
        }
    }
}

/// The derivation of a part that succeeded after others.
fn tried_deriv(
    alloc: Global,
    goal: Goal,
    limit: Option<u64>,
    failures: Failures,
    last: Deriv,
) -> Result<Deriv, AllocError>
    ensures { IfOk result (λ d. d ≡ tried_deriv goal limit failures last) }
{
    let Failures {
        derivs: failed,
        spent,
        left: _,
    } = failures;
    let all = add(spent, last.spent)?;
    let out = last.out.copy(alloc)?;
    let last = Boxed::new(alloc, last)?;
    Ok(Deriv {
        goal,
        limit,
        spent: all,
        out,
        node: Node::Tries {
            failed,
            last: Some(last),
        },
    })
}

/// The run all of whose parts failed: the cause is that of the first.
pub fn tried_all(goal: Goal, limit: Option<u64>, failures: Failures) -> Result<Ran, RunStop>
    ensures run { (c : Setting) (ts : List Tree) (s : Strategy) (parts : List Strategy) (ps : Params) (n : ℕ) (chain : List Place) (v : View) → HasGoal ts goal → n ≤ DEEPEST → InOrder s parts → 1 ≤ length parts → AreTried c v.top ts parts (goal_tree ts goal) limit ps (n + 1) failures → HasRun c ts s (goal_tree ts goal) limit ps n chain v result }
    ensures draws { (old new : View) → FailuresTally old new failures → RunTally old new result }
{
    let deriv = tried_all_deriv(goal, limit, failures)?;
    Err(RunStop::Failed(deriv))
}

/// The derivation of parts that all failed. Where none did, there is none.
fn tried_all_deriv(goal: Goal, limit: Option<u64>, failures: Failures) -> Result<Deriv, AllocError>
    ensures { IfOk result (λ d. IsTriedAll goal limit failures d) }
{
    let Failures {
        derivs: failed,
        spent,
        left: _,
    } = failures;
    let cause = first_cause(failed.as_slice())?;
    Ok(Deriv {
        goal,
        limit,
        spent,
        out: Outcome::Failed(cause),
        node: Node::Tries { failed, last: None },
    })
}

/// The cause of the first.
fn first_cause(failed: &[Deriv]) -> Result<Cause, AllocError>
    ensures { IfOk result (λ c. IsFirstCause failed.now c) }
{
    match failed.first() {
        Some(first) => cause_of(first),
        None => Err(AllocError),
    }
}

/// The cause of a failure.
fn cause_of(deriv: &Deriv) -> Result<Cause, AllocError>
    ensures { IfOk result (λ c. deriv.now.out ≡ outcome.Failed c) }
{
    match &deriv.out {
        Outcome::Failed(cause) => {
            let cause = cause.clone()?;
            Ok(cause)
        }
        Outcome::Done(_) => Err(AllocError),
    }
}
