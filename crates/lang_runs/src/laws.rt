//! What stays of a run as the store grows and the racer goes on, and how many tickets a whole check drew. Nothing is run.
ghost use Rattle.std.specs.Prelude.{◌≡◌, ◌≤◌, ◌<◌, ◌+◌, min, ℕ, List, Option, Result, IfSome};
ghost use Rattle.qterm.specs.Tree.{Tree};
ghost use Rattle.qterm.specs.Store.{Extends};
ghost use Rattle.qgoal.specs.declared.goal.Goal.{Goal};
ghost use Rattle.qgoal.specs.Goal.{GoalTree, HasGoal, goal_tree};
ghost use Rattle.strat_text.specs.declared.strategy.Strategy.{Strategy};
ghost use Rattle.race_word.specs.declared.place.Place.{Place};
ghost use Rattle.race_word.specs.declared.view.View.{View};
ghost use Rattle.race_word.specs.Has.{HasSeen};
ghost use Rattle.race_word.specs.Runner.{Runner};
ghost use Rattle.race_word.specs.Keeps.{Keeps, Grows};
ghost use Rattle.deriv.specs.declared.params.Params.{Params};
ghost use Rattle.deriv.specs.declared.deriv.Deriv.{Deriv};
ghost use Rattle.lang_runs.specs.declared.failures.Failures.{Failures};
ghost use Rattle.lang_runs.specs.declared.ran.Ran.{Ran};
ghost use Rattle.lang_runs.specs.declared.ran.RunStop.{RunStop};
ghost use Rattle.lang_runs.specs.Runs.{Setting, IsRun, IsFailure, HasRun};
ghost use Rattle.lang_runs.specs.Forms.{AreTried};
ghost use Rattle.lang_runs.specs.Drawn.{IsDrawn};

/// A goal of the store is the same one over each that the store grows to, and so are a run's derivation, its goals and its converters;
/// and where a racer goes on, so that its top doesn't fall and what it saw stays seen, an answer stays one.
pub fn runs_stay()
    ensures goal { (ts us : List Tree) (goal : Goal) → Extends ts us → HasGoal ts goal → goal_tree us goal ≡ goal_tree ts goal }
    ensures has_goal { (ts us : List Tree) (goal : Goal) → Extends ts us → HasGoal ts goal → HasGoal us goal }
    ensures run { (c : Setting) (top higher : ℕ) (ts us : List Tree) (s : Strategy) (g : GoalTree) (l : Option ℕ) (ps : Params) (n : ℕ) (r : Ran) → Extends ts us → top ≤ higher → IsRun c top ts s g l ps n r → IsRun c higher us s g l ps n r }
    ensures failure { (c : Setting) (top higher : ℕ) (ts us : List Tree) (s : Strategy) (g : GoalTree) (l : Option ℕ) (ps : Params) (n : ℕ) (d : Deriv) → Extends ts us → top ≤ higher → IsFailure c top ts s g l ps n d → IsFailure c higher us s g l ps n d }
    ensures tried { (c : Setting) (top higher : ℕ) (ts us : List Tree) (parts : List Strategy) (g : GoalTree) (l : Option ℕ) (ps : Params) (n : ℕ) (f : Failures) → Extends ts us → top ≤ higher → AreTried c top ts parts g l ps n f → AreTried c higher us parts g l ps n f }
    ensures answer { (c : Setting) (ts us : List Tree) (s : Strategy) (g : GoalTree) (l : Option ℕ) (ps : Params) (n : ℕ) (chain : List Place) (v w : View) (ran : Result Ran RunStop) → Extends ts us → v.top ≤ w.top → ((race winner : ℕ) → HasSeen v race winner → HasSeen w race winner) → HasRun c ts s g l ps n chain v ran → HasRun c us s g l ps n chain w ran }
    ensures keeps { (c : Setting) (ts us : List Tree) (s : Strategy) (g : GoalTree) (l : Option ℕ) (ps : Params) (n : ℕ) (old new : Runner) (ran : Result Ran RunStop) → Extends ts us → Keeps old new → HasRun c ts s g l ps n old.chain old.view ran → HasRun c us s g l ps n new.chain new.view ran }
    ensures grows { (c : Setting) (ts us : List Tree) (s : Strategy) (g : GoalTree) (l : Option ℕ) (ps : Params) (n : ℕ) (old new : Runner) (ran : Result Ran RunStop) → Extends ts us → Grows old new → HasRun c ts s g l ps n old.chain old.view ran → HasRun c us s g l ps n new.chain new.view ran }
{}

/// Where a racer had drawn nothing before a run, and drew alone, with one worker, all tickets of a check, these are the lesser of all
/// lemmas that the reducers of the run's derivation spent and the pool and one more.
///
/// They are at most the pool and one more; an end of the pool that is noted then is a ticket past the pool, which they count.
pub fn drawn_is_the_lesser()
    ensures { (pool drawn spent ends : ℕ) (old new : View) → IsDrawn old new spent ends → old.draws ≡ 0 → drawn ≡ new.draws → drawn ≤ pool + 1 → IfSome new.end (λ ticket. (pool ≤ ticket) × (ticket < drawn)) → drawn ≡ min spent (pool + 1) }
{}
