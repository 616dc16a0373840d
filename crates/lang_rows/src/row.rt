//! Rows of runs.
ghost use Rattle.std.specs.Prelude.{◌≡◌, ◌+◌, ◌++◌, ◌∷◌, [], ℕ, List, Option, length, false, Ok, MatchOption, IfOk, IfErr, IsOkAnd, slice_index};
ghost use Rattle.qterm.specs.Tree.{Tree};
ghost use Rattle.qgoal.specs.declared.goal.Goal.{Goal};
ghost use Rattle.qgoal.specs.Goal.{GoalTree, HasGoal, goal_tree};
ghost use Rattle.strat_text.specs.declared.strategy.Strategy.{Strategy};
ghost use Rattle.race_word.specs.declared.view.View.{View};
ghost use Rattle.deriv.specs.declared.params.Params.{Params};
ghost use Rattle.reducer_iface.specs.Depths.{IsShallow};
ghost use Rattle.lang_runs.specs.declared.ran.RunStop.TheVariants as stops;
ghost use Rattle.lang_runs.specs.Runs.{Setting, IsRun};
ghost use Rattle.lang_runs.specs.Drawn.{Tally as DerivTally};
ghost use Rattle.lang_rows.specs.Rows.{IsRow, IsNext, IsWhole, HasGrown, is_sat_run};
ghost use Rattle.lang_rows.specs.Drawn.{RowTally};

use crate::joined::{Joined, Reached};
use deriv::Deriv;
use lang_runs::{Ran, RunStop, add, discard, remains};
use model_conv::Discarded;
use qgoal::Goal;
use sqlite_items::Items;
use std::alloc::{AllocError, Global};

/// A success of a first part with the runs of the rest on the first of its goals, in order. It has to be spent.
pub struct Row {
    /// The first part's.
    pub first: Ran,
    /// What the runs of the rest come to together.
    pub joined: Joined,
    /// Their derivations.
    pub derivs: Items<Deriv>,
    /// How many lemmas all of them spent.
    pub spent: u64,
    /// What is left of the limit.
    pub left: Option<u64>,
}

/// Derivations in a row with the lemmas that were spent.
#[derive(Drop)]
pub(crate) struct Tally {
    pub(crate) derivs: Items<Deriv>,
    pub(crate) spent: u64,
}

impl Row {
    /// The row in which the rest hasn't run yet.
    pub fn new(alloc: Global, first: Ran, limit: Option<u64>) -> Row
        ensures row { (c : Setting) (top : ℕ) (ts : List Tree) (p r : Strategy) (g : GoalTree) (ps : Params) (n : ℕ) → IsRun c top ts p g limit ps n first → IsRow c top ts p r g limit ps n result }
        ensures first { result.first ≡ first }
        ensures draws { (old new : View) → DerivTally old new first.deriv → RowTally old new result }
    {
        let left = remains(limit, first.deriv.spent);
        let spent = first.deriv.spent;
        Row {
            first,
            joined: Joined::new(alloc),
            derivs: Items::new(alloc),
            spent,
            left,
        }
    }

    /// The goal on which the rest runs next, or nothing where it ran on all.
    pub fn next(&self) -> Option<&Goal>
        ensures next { MatchOption result (IsWhole self.now) (λ goal. IsNext self.now goal.now) }
        ensures fits { MatchOption result (Unit {0}) (λ goal. (c : Setting) (top : ℕ) (ts : List Tree) (p r : Strategy) (g : GoalTree) (l : Option ℕ) (ps : Params) (n : ℕ) → IsRow c top ts p r g l ps n self.now → HasGoal ts goal.now × IsShallow (goal_tree ts goal.now)) }
    {
        self.first.goals.get(self.derivs.len())
    }

    /// The row with one more run, which isn't sat. Sums past 64 bits count as want of memory.
    pub fn with(self, ran: Ran) -> Result<Row, RunStop>
        ensures row { (c : Setting) (top : ℕ) (ts : List Tree) (p r : Strategy) (g : GoalTree) (l : Option ℕ) (ps : Params) (n : ℕ) (goal : Goal) → IsRow c top ts p r g l ps n self → IsNext self goal → IsRun c top ts r (goal_tree ts goal) self.left ps n ran → is_sat_run ts ran ≡ false → (more : Row) → result ≡ Ok more → IsRow c top ts p r g l ps n more }
        ensures grows { (more : Row) → result ≡ Ok more → (more.first ≡ self.first) × (length more.derivs ≡ length self.derivs + 1) }
        ensures draws { (before old new : View) → RowTally before old self → DerivTally old new ran.deriv → (more : Row) → result ≡ Ok more → RowTally before new more }
        ensures refused { IfErr result (λ stop. stop ≡ stops.Memory) }
    {
        let more = self.pushed(ran)?;
        Ok(more)
    }

    /// The row with one more run behind it.
    fn pushed(self, ran: Ran) -> Result<Row, RunStop>
        ensures grown { IfOk result (λ more. HasGrown self more ran) }
        ensures refused { IfErr result (λ stop. stop ≡ stops.Memory) }
    {
        let Row {
            first,
            joined,
            derivs,
            spent,
            left,
        } = self;
        let up = at(first.above.as_slice(), derivs.len());
        let Ran {
            goals,
            above,
            models,
            proofs,
            deriv,
        } = ran;
        let left = remains(left, deriv.spent);
        let tally = tallied(Tally { derivs, spent }, deriv);
        let joined = joined.with(up, Reached { goals, above }, models, proofs);
        grown(first, joined, tally, left)
    }

    /// Spends all converters without a use of them.
    pub fn discard(self, why: Discarded) {
        let Row {
            first,
            joined,
            derivs: _,
            spent: _,
            left: _,
        } = self;
        spend(first, why);
        joined.discard(why);
    }
}

/// The row of these parts, where each is there.
fn grown(
    first: Ran,
    joined: Result<Joined, AllocError>,
    tally: Result<Tally, AllocError>,
    left: Option<u64>,
) -> Result<Row, RunStop>
    ensures first { IfOk result (λ row. row.first ≡ first) }
    ensures joined { IfOk result (λ row. IsOkAnd joined (λ j. row.joined ≡ j)) }
    ensures derivs { IfOk result (λ row. IsOkAnd tally (λ t. row.derivs ≡ t.derivs)) }
    ensures spent { IfOk result (λ row. IsOkAnd tally (λ t. row.spent ≡ t.spent)) }
    ensures left { IfOk result (λ row. row.left ≡ left) }
    ensures refused { IfErr result (λ stop. stop ≡ stops.Memory) }
{
    match joined {
        Ok(joined) => match tally {
            Ok(Tally { derivs, spent }) => Ok(Row {
                first,
                joined,
                derivs,
                spent,
                left,
            }),
            Err(_) => {
                joined.discard(Discarded::Memory);
                spend(first, Discarded::Memory);
                Err(RunStop::Memory)
            }
        },
        Err(_) => {
            spend(first, Discarded::Memory);
            Err(RunStop::Memory)
        }
    }
}

/// The number at a place, or 0 past the end.
pub(crate) fn at(numbers: &[u32], place: usize) -> u32
    ensures { result ≡ slice_index numbers.now place }
{
    match numbers.get(place) {
        Some(number) => *number,
        None => 0,
    }
}

/// With one more derivation, where the sum has 64 bits.
pub(crate) fn tallied(before: Tally, deriv: Deriv) -> Result<Tally, AllocError>
    ensures derivs { IfOk result (λ all. all.derivs ≡ before.derivs ++ deriv ∷ []) }
    ensures spent { IfOk result (λ all. all.spent ≡ before.spent + deriv.spent) }
{
    let Tally { mut derivs, spent } = before;
    let spent = add(spent, deriv.spent)?;
    derivs.push(deriv)?;
    Ok(Tally { derivs, spent })
}

/// Spends the converters of a run without a use of them.
pub(crate) fn spend(ran: Ran, why: Discarded) {
    let Ran {
        goals: _,
        above: _,
        models,
        proofs,
        deriv: _,
    } = ran;
    discard(models, proofs, why);
}
