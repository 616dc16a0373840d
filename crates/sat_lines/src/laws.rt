//! What the names of numbers have in common with their terms, as the contract of a function that does nothing.
ghost use Rattle.std.specs.Prelude.{ℕ, List, length};
ghost use Rattle.qterm.specs.declared.name.Name.{Name};
ghost use Rattle.qterm.specs.Tree.{Tree};
ghost use Rattle.qterm.specs.Store.{IsDistinct};
ghost use Rattle.qwalk.specs.Count.{AreApart};
ghost use Rattle.sat_clauses.specs.Coding.{AreDifferent};
ghost use Rattle.sat_lines.specs.Terms.{StandFor};

/// Different numbers stand for different names, where no id stands twice in the list.
pub fn names_are_different()
    ensures { (ts : List Tree) (vars : List ℕ) (f : ℕ → Name) → IsDistinct ts → AreApart vars → StandFor ts vars f → AreDifferent (length vars) f }
{}
