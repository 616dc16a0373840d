//! Runs side by side.
ghost use Rattle.std.specs.Prelude.{◌≡◌, ◌+◌, ◌++◌, ◌∷◌, [], ℕ, List, Option, length, max, false, Ok, MatchOption, IfOk, IfErr, IsOkAnd};
ghost use Rattle.qterm.specs.Tree.{Tree};
ghost use Rattle.qgoal.specs.declared.goal.Goal.{Goal};
ghost use Rattle.qgoal.specs.Goal.{GoalTree, HasGoal, goal_tree};
ghost use Rattle.strat_text.specs.declared.strategy.Strategy.{Strategy};
ghost use Rattle.race_word.specs.declared.view.View.{View};
ghost use Rattle.deriv.specs.declared.params.Params.{Params};
ghost use Rattle.reducer_iface.specs.Depths.{IsShallow};
ghost use Rattle.lang_runs.specs.Runs.{Setting, IsRun};
ghost use Rattle.lang_runs.specs.Drawn.{Tally};
ghost use Rattle.lang_runs.specs.declared.ran.RunStop.TheVariants as stops;
ghost use Rattle.lang_rows.specs.Beside.{AreBeside, IsPart, IsNextBeside, AreAllDone, cause_of, first_of, HasEnded, HasStopped};
ghost use Rattle.lang_rows.specs.Drawn.{BesideTally, PartTally};

use crate::joined::{Joined, Reached};
use crate::row::{at, spend};
use deriv::{Cause, Deriv, Outcome};
use lang_runs::{Ran, RunStop, remains};
use model_conv::Discarded;
use qgoal::Goal;
use sqlite_items::Items;
use std::alloc::{AllocError, Global};

/// What came of the second on a goal.
pub enum Part {
    /// A success.
    Ended(Ran),
    /// A failure, by this derivation.
    Stopped(Deriv),
}

/// A success of a first part with what came of the second on the first of its goals, in order. It has to be spent.
pub struct Beside {
    /// The first part's.
    pub first: Ran,
    /// What the successes of the second come to together.
    pub joined: Joined,
    /// The derivations, each with the number of its goal.
    pub derivs: Items<(u32, Deriv)>,
    /// The cause of the first failure.
    pub cause: Option<Cause>,
    /// The most lemmas that one of these spent.
    pub most: u64,
    /// What is left of the limit for each of them.
    pub left: Option<u64>,
}

/// What is known of the derivations of the second.
#[derive(Drop)]
struct Listed {
    derivs: Items<(u32, Deriv)>,
    cause: Option<Cause>,
    most: u64,
}

impl Beside {
    /// The second hasn't run yet.
    pub fn new(alloc: Global, first: Ran, limit: Option<u64>) -> Beside
        ensures beside { (c : Setting) (top : ℕ) (ts : List Tree) (p r : Strategy) (g : GoalTree) (ps : Params) (n : ℕ) → IsRun c top ts p g limit ps n first → AreBeside c top ts p r g limit ps n result }
        ensures draws { (old new : View) → Tally old new first.deriv → BesideTally old new result }
    {
        let left = remains(limit, first.deriv.spent);
        Beside {
            first,
            joined: Joined::new(alloc),
            derivs: Items::new(alloc),
            cause: None,
            most: 0,
            left,
        }
    }

    /// The goal on which the second runs next, or nothing where it ran on all.
    pub fn next(&self) -> Option<&Goal>
        ensures next { MatchOption result (AreAllDone self.now) (λ goal. IsNextBeside self.now goal.now) }
        ensures fits { MatchOption result (Unit {0}) (λ goal. (c : Setting) (top : ℕ) (ts : List Tree) (p r : Strategy) (g : GoalTree) (l : Option ℕ) (ps : Params) (n : ℕ) → AreBeside c top ts p r g l ps n self.now → HasGoal ts goal.now × IsShallow (goal_tree ts goal.now)) }
    {
        self.first.goals.get(self.derivs.len())
    }

    /// With what came of the next goal, which isn't sat.
    pub fn with(self, part: Part) -> Result<Beside, RunStop>
        ensures beside { (c : Setting) (top : ℕ) (ts : List Tree) (p r : Strategy) (g : GoalTree) (l : Option ℕ) (ps : Params) (n : ℕ) (goal : Goal) → AreBeside c top ts p r g l ps n self → IsNextBeside self goal → IsPart c top ts r (goal_tree ts goal) self.left ps n part → (more : Beside) → result ≡ Ok more → AreBeside c top ts p r g l ps n more }
        ensures grows { (more : Beside) → result ≡ Ok more → (more.first ≡ self.first) × (length more.derivs ≡ length self.derivs + 1) }
        ensures draws { (before old new : View) → BesideTally before old self → PartTally old new part → (more : Beside) → result ≡ Ok more → BesideTally before new more }
        ensures refused { IfErr result (λ stop. stop ≡ stops.Memory) }
    {
        match part {
            Part::Ended(ran) => self.ended(ran),
            Part::Stopped(deriv) => self.stopped(deriv),
        }
    }

    /// With a success of the second behind the others.
    fn ended(self, ran: Ran) -> Result<Beside, RunStop>
        ensures grown { IfOk result (λ more. HasEnded self more ran) }
        ensures refused { IfErr result (λ stop. stop ≡ stops.Memory) }
    {
        let Beside {
            first,
            joined,
            derivs,
            cause,
            most,
            left,
        } = self;
        let up = at(first.above.as_slice(), derivs.len());
        let Ran {
            goals,
            above,
            models,
            proofs,
            deriv,
        } = ran;
        let before = Listed {
            derivs,
            cause,
            most,
        };
        let listed = with_deriv(before, deriv);
        let joined = joined.with(up, Reached { goals, above }, models, proofs);
        grown(first, joined, listed, left)
    }

    /// With a failure of the second behind the others.
    fn stopped(self, deriv: Deriv) -> Result<Beside, RunStop>
        ensures grown { IfOk result (λ more. HasStopped self more deriv) }
        ensures refused { IfErr result (λ stop. stop ≡ stops.Memory) }
    {
        let Beside {
            first,
            joined,
            derivs,
            cause,
            most,
            left,
        } = self;
        let before = Listed {
            derivs,
            cause,
            most,
        };
        let listed = with_failure(before, deriv);
        grown(first, Ok(joined), listed, left)
    }

    /// Spends all converters without a use of them.
    pub fn discard(self, why: Discarded) {
        let Beside {
            first,
            joined,
            derivs: _,
            cause: _,
            most: _,
            left: _,
        } = self;
        spend(first, why);
        joined.discard(why);
    }
}

/// Runs side by side of these parts, where each is there.
fn grown(
    first: Ran,
    joined: Result<Joined, AllocError>,
    listed: Result<Listed, AllocError>,
    left: Option<u64>,
) -> Result<Beside, RunStop>
    ensures first { IfOk result (λ all. all.first ≡ first) }
    ensures joined { IfOk result (λ all. IsOkAnd joined (λ j. all.joined ≡ j)) }
    ensures derivs { IfOk result (λ all. IsOkAnd listed (λ t. all.derivs ≡ t.derivs)) }
    ensures cause { IfOk result (λ all. IsOkAnd listed (λ t. all.cause ≡ t.cause)) }
    ensures most { IfOk result (λ all. IsOkAnd listed (λ t. all.most ≡ t.most)) }
    ensures left { IfOk result (λ all. all.left ≡ left) }
    ensures refused { IfErr result (λ stop. stop ≡ stops.Memory) }
{
    match joined {
        Ok(joined) => match listed {
            Ok(
                Listed {
                    derivs,
                    cause,
                    most,
                },
            ) => Ok(Beside {
                first,
                joined,
                derivs,
                cause,
                most,
                left,
            }),
            Err(_) => {
                joined.discard(Discarded::Memory);
                spend(first, Discarded::Memory);
                Err(RunStop::Memory)
            }
        },
        Err(_) => {
            spend(first, Discarded::Memory);
            Err(RunStop::Memory)
        }
    }
}

/// With one more derivation. A number past 32 bits counts as want of memory.
fn with_deriv(before: Listed, deriv: Deriv) -> Result<Listed, AllocError>
    ensures derivs { IfOk result (λ all. all.derivs ≡ before.derivs ++ (length before.derivs, deriv) ∷ []) }
    ensures cause { IfOk result (λ all. all.cause ≡ before.cause) }
    ensures most { IfOk result (λ all. all.most ≡ max before.most deriv.spent) }
{
    let Listed {
        mut derivs,
        cause,
        most,
    } = before;
    let number = number(derivs.len())?;
    let most = most.max(deriv.spent);
    derivs.push((number, deriv))?;
    Ok(Listed {
        derivs,
        cause,
        most,
    })
}

/// With one more derivation, whose cause counts where none did before.
fn with_failure(before: Listed, deriv: Deriv) -> Result<Listed, AllocError>
    ensures derivs { IfOk result (λ all. all.derivs ≡ before.derivs ++ (length before.derivs, deriv) ∷ []) }
    ensures cause { IfOk result (λ all. all.cause ≡ first_of before.cause (cause_of deriv.out)) }
    ensures most { IfOk result (λ all. all.most ≡ max before.most deriv.spent) }
{
    let Listed {
        derivs,
        cause,
        most,
    } = before;
    let cause = first_of(cause, &deriv.out)?;
    let before = Listed {
        derivs,
        cause,
        most,
    };
    let all = with_deriv(before, deriv)?;
    Ok(all)
}

/// The cause that is there, and else that of the outcome.
fn first_of(before: Option<Cause>, out: &Outcome) -> Result<Option<Cause>, AllocError>
    ensures { IfOk result (λ cause. cause ≡ first_of before (cause_of out.now)) }
{
    match before {
        Some(cause) => Ok(Some(cause)),
        None => cause_of(out),
    }
}

/// The cause of a failure.
fn cause_of(out: &Outcome) -> Result<Option<Cause>, AllocError>
    ensures { IfOk result (λ cause. cause ≡ cause_of out.now) }
{
    match out {
        Outcome::Failed(cause) => {
            let cause = cause.clone()?;
            Ok(Some(cause))
        }
        Outcome::Done(_) => Ok(None),
    }
}

/// The number, where it has 32 bits.
pub(crate) fn number(place: usize) -> Result<u32, AllocError>
    ensures { IfOk result (λ number. number ≡ place) }
{
    match u32::try_from(place) {
        Ok(number) => Ok(number),
        Err(_) => Err(AllocError),
    }
}
