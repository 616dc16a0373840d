//! Tests of a success.
ghost use Rattle.std.specs.Prelude.{◌≡◌, ◌↔◌, ◌∷◌, [], List, All, IsTrue};
ghost use Rattle.qterm.specs.Tree.{Tree};
ghost use Rattle.qgoal.specs.Decided.{decided};
ghost use Rattle.qgoal.specs.Goal.{HasGoal, goal_tree};
ghost use Rattle.deriv.specs.Outcome.{goal_trees, is_sat};
ghost use Rattle.lang_rows.specs.Rows.{is_sat_run};

use lang_runs::Ran;
use qgoal::Goal;
use qterm::Store;

/// Whether one of its goals is decided as sat.
pub fn is_sat(ran: &Ran) -> bool
    ensures sat { (ts : List Tree) → result ≡ is_sat_run ts ran.now }
{
    for goal in ran.goals.as_slice() {
        if is_sat_goal(goal) {
            return true;
        }
    }
    false
}

/// Whether the goal is decided as sat: it has no formula, and models go up.
fn is_sat_goal(goal: &Goal) -> bool
    ensures { (ts : List Tree) → result ≡ is_sat (decided (goal_tree ts goal.now)) }
{
    goal.formulas.is_empty() && goal.precision.is_up()
}

/// Whether these goals are that goal alone.
pub fn is_unchanged(store: &Store, goal: &Goal, goals: &[Goal]) -> bool
    ensures unchanged { HasGoal store.now goal.now → All (HasGoal store.now) goals.now → IsTrue result ↔ (goal_trees store.now goals.now ≡ goal_tree store.now goal.now ∷ []) }
{
    store.is_distinct();
    goals.len() == 1 && is_same(&goals[0], goal)
}

/// Whether two goals are the same.
fn is_same(a: &Goal, b: &Goal) -> bool
    ensures { IsTrue result ↔ (a.now ≡ b.now) }
{
    *a == *b
}
