//! Parts of strategies, and steps between their runs.
ghost use Rattle.std.specs.Prelude.{◌≡◌, ◌<◌, ◌∷◌, [], ◌++◌, ◌+◌, ℕ, List, Option, All, IfOk, IsSome, MatchBool, length, drop, is_some, if◌then◌else◌, false, IsTrue};
ghost use Rattle.qterm.specs.Tree.{Tree};
ghost use Rattle.qgoal.specs.declared.goal.Goal.{Goal};
ghost use Rattle.qgoal.specs.Goal.{GoalTree, HasGoal, goal_tree};
ghost use Rattle.strat_text.specs.declared.strategy.Strategy.{Strategy};
ghost use Rattle.race_word.specs.declared.view.View.{View};
ghost use Rattle.deriv.specs.declared.params.Params.{Params};
ghost use Rattle.deriv.specs.Outcome.{goal_trees};
ghost use Rattle.deriv.specs.Derives.{is_true, GoesOn};
ghost use Rattle.lang_runs.specs.Runs.{Setting, IsRun, IsFailure};
ghost use Rattle.lang_runs.specs.Forms.{AreTried};
ghost use Rattle.lang_runs.specs.Drawn.{Tally, FailuresTally};
ghost use Rattle.lang_rows.specs.Rows.{IsRow, IsNext, is_sat_run};
ghost use Rattle.lang_rows.specs.Beside.{AreBeside, IsNextBeside, IsPart};
ghost use Rattle.lang_rows.specs.Drawn.{RowTally, BesideTally, PartTally};

use deriv::Deriv;
use lang_rows::{Beside, Part, Row, is_unchanged};
use lang_runs::{Failures, Ran};
use qgoal::Goal;
use qterm::Store;
use std::alloc::AllocError;
use strat_text::Strategy;

/// Whether the value of a test is true.
pub(crate) fn is_true(value: i128) -> bool
    ensures { result ≡ is_true value }
{
    value != 0
}

/// The part that a value chooses.
pub(crate) fn chosen<'a>(value: i128, part: &'a Strategy, other: &'a Strategy) -> &'a Strategy
    ensures { result.now ≡ (if is_true value then part.now else other.now) }
{
    if is_true(value) { part } else { other }
}

/// The part at a place.
pub(crate) fn part_at(parts: &[Strategy], at: usize) -> &Strategy
    requires some { at < length parts.now }
    ensures { drop at parts.now ≡ result.now ∷ drop (at + 1) parts.now }
{
    &parts[at]
}

/// Whether a repeat rests: its part gave the goal alone and unchanged. Else what follows runs on the goals.
pub(crate) fn is_at_rest(turns: Option<u64>, store: &Store, goal: &Goal, goals: &[Goal]) -> bool
    requires goal { HasGoal store.now goal.now }
    requires goals { All (HasGoal store.now) goals.now }
    ensures { MatchBool result (IsSome turns × (goal_trees store.now goals.now ≡ goal_tree store.now goal.now ∷ [])) (GoesOn (is_some turns) (goal_tree store.now goal.now) (goal_trees store.now goals.now)) }
{
    match turns {
        Some(_) => is_unchanged(store, goal, goals),
        None => false,
    }
}

/// The failed parts with one more.
pub(crate) fn with_failure(failures: Failures, deriv: Deriv) -> Result<Failures, AllocError>
    ensures tried { IfOk result (λ more. (c : Setting) (top : ℕ) (ts : List Tree) (parts : List Strategy) (part : Strategy) (g : GoalTree) (l : Option ℕ) (ps : Params) (n : ℕ) → AreTried c top ts parts g l ps n failures → IsFailure c top ts part g failures.left ps n deriv → AreTried c top ts (parts ++ part ∷ []) g l ps n more) }
    ensures draws { IfOk result (λ more. (before old new : View) → FailuresTally before old failures → Tally old new deriv → FailuresTally before new more) }
{
    match failures.with(deriv) {
        Ok(more) => Ok(more),
        Err(_) => Err(AllocError),
    }
}

/// The row with one more run, which isn't sat.
pub(crate) fn with_run(row: Row, ran: Ran) -> Result<Row, AllocError>
    ensures row { IfOk result (λ more. (c : Setting) (top : ℕ) (ts : List Tree) (p r : Strategy) (g : GoalTree) (l : Option ℕ) (ps : Params) (n : ℕ) (goal : Goal) → IsRow c top ts p r g l ps n row → IsNext row goal → IsRun c top ts r (goal_tree ts goal) row.left ps n ran → is_sat_run ts ran ≡ false → IsRow c top ts p r g l ps n more) }
    ensures grows { IfOk result (λ more. (more.first ≡ row.first) × (length more.derivs ≡ length row.derivs + 1)) }
    ensures draws { IfOk result (λ more. (before old new : View) → RowTally before old row → Tally old new ran.deriv → RowTally before new more) }
{
    match row.with(ran) {
        Ok(more) => Ok(more),
        Err(_) => Err(AllocError),
    }
}

/// The runs side by side with what came of the next goal.
pub(crate) fn with_part(beside: Beside, part: Part) -> Result<Beside, AllocError>
    ensures beside { IfOk result (λ more. (c : Setting) (top : ℕ) (ts : List Tree) (p r : Strategy) (g : GoalTree) (l : Option ℕ) (ps : Params) (n : ℕ) (goal : Goal) → AreBeside c top ts p r g l ps n beside → IsNextBeside beside goal → IsPart c top ts r (goal_tree ts goal) beside.left ps n part → AreBeside c top ts p r g l ps n more) }
    ensures grows { IfOk result (λ more. (more.first ≡ beside.first) × (length more.derivs ≡ length beside.derivs + 1)) }
    ensures draws { IfOk result (λ more. (before old new : View) → BesideTally before old beside → PartTally old new part → BesideTally before new more) }
{
    match beside.with(part) {
        Ok(more) => Ok(more),
        Err(_) => Err(AllocError),
    }
}
