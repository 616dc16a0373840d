//! The laws of the bounds that formulas give names.
ghost use Rattle.std.specs.Prelude.{◌≡◌, ℤ, ◌≤ℤ◌, List, Contains, Some, None, true};
ghost use Rattle.qterm.specs.declared.name.Name.{Name};
ghost use Rattle.qterm.specs.Tree.{Tree, Var};
ghost use Rattle.qeval.specs.Value.{Valuation};
ghost use Rattle.qeval.specs.Eval.{number, truth};
ghost use Rattle.qeval.specs.Bounds.{low_in, up_in, low_of, up_of, IsTightest, HasNone, IsAbove, IsBelow};

/// A bound of a name is one that some formula gives, and none gives a tighter one. There is none only where no formula gives one.
pub fn bounds_are_tightest()
    ensures low { (x : Name) (fs : List Tree) (z : ℤ) → low_of x fs ≡ Some z → IsTightest (low_in x) IsAbove fs z }
    ensures no_low { (x : Name) (fs : List Tree) → low_of x fs ≡ None → HasNone (low_in x) fs }
    ensures up { (x : Name) (fs : List Tree) (z : ℤ) → up_of x fs ≡ Some z → IsTightest (up_in x) IsBelow fs z }
    ensures no_up { (x : Name) (fs : List Tree) → up_of x fs ≡ None → HasNone (up_in x) fs }
{}

/// Under a valuation that makes formulas true, each name is within the bounds that the formulas give it.
pub fn truth_is_within_bounds()
    ensures low { (V : Valuation) (fs : List Tree) (x : Name) (z : ℤ) → ((f : Tree) → Contains fs f → truth V f ≡ true) → low_of x fs ≡ Some z → z ≤ℤ number V (Var x) }
    ensures up { (V : Valuation) (fs : List Tree) (x : Name) (z : ℤ) → ((f : Tree) → Contains fs f → truth V f ≡ true) → up_of x fs ≡ Some z → number V (Var x) ≤ℤ z }
{}
