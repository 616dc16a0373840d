//! What stays of rows. Nothing is run: the function stands for the laws that it ensures.
ghost use Rattle.std.specs.Prelude.{◌≤◌, ℕ, List, Option};
ghost use Rattle.qterm.specs.Tree.{Tree};
ghost use Rattle.qterm.specs.Store.{Extends};
ghost use Rattle.qgoal.specs.Goal.{GoalTree};
ghost use Rattle.strat_text.specs.declared.strategy.Strategy.{Strategy};
ghost use Rattle.deriv.specs.declared.params.Params.{Params};
ghost use Rattle.lang_runs.specs.declared.ran.Ran.{Ran};
ghost use Rattle.lang_runs.specs.Runs.{Setting, IsRun};
ghost use Rattle.lang_rows.specs.declared.row.Row.{Row};
ghost use Rattle.lang_rows.specs.declared.beside.Beside.{Beside};
ghost use Rattle.lang_rows.specs.Rows.{IsRow};
ghost use Rattle.lang_rows.specs.Beside.{AreBeside};

/// As the store grows and the top rises, runs stay runs, rows stay rows, and so do runs side by side.
pub fn rows_stay()
    ensures run { (c : Setting) (top higher : ℕ) (ts us : List Tree) (s : Strategy) (g : GoalTree) (l : Option ℕ) (ps : Params) (n : ℕ) (ran : Ran) → top ≤ higher → Extends ts us → IsRun c top ts s g l ps n ran → IsRun c higher us s g l ps n ran }
    ensures row { (c : Setting) (top higher : ℕ) (ts us : List Tree) (p r : Strategy) (g : GoalTree) (l : Option ℕ) (ps : Params) (n : ℕ) (row : Row) → top ≤ higher → Extends ts us → IsRow c top ts p r g l ps n row → IsRow c higher us p r g l ps n row }
    ensures beside { (c : Setting) (top higher : ℕ) (ts us : List Tree) (p r : Strategy) (g : GoalTree) (l : Option ℕ) (ps : Params) (n : ℕ) (b : Beside) → top ≤ higher → Extends ts us → AreBeside c top ts p r g l ps n b → AreBeside c higher us p r g l ps n b }
{}
