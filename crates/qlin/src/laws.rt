//! The laws of the definitions in specs/ that the calls rest on.
ghost use Rattle.std.specs.Prelude.{◌≡◌, ℕ, ℤ, List};
ghost use Rattle.std.specs.Cmp.{IsTotalOrder};
ghost use Rattle.std.specs.Int.{◌∣◌};
ghost use Rattle.std.specs.declared.cmp.Ordering.TheVariants.{Equal};
ghost use Rattle.qterm.specs.Tree.{Tree};
ghost use Rattle.qterm.specs.Store.{Extends};
ghost use Rattle.qlin.specs.Order.{tree_cmp};
ghost use Rattle.qlin.specs.Atom.{content, DividesAll};
ghost use Rattle.qlin.specs.Lin.{form_at, IsForm};
ghost use Rattle.qlin.specs.declared.lin.Lin.{Lin};

/// The order of trees is a total one, in which only equal trees are equal.
pub fn trees_are_ordered()
    ensures total { IsTotalOrder tree_cmp }
    ensures equal { (t u : Tree) → tree_cmp t u ≡ Equal → t ≡ u }
{}

/// The number by which a form is divided to be tightened is the greatest common divisor of its numbers: it divides each of them,
/// and each number that divides all of them divides it.
pub fn content_is_greatest()
    ensures divides { (parts : List (ℤ × ℕ)) → DividesAll (content parts) parts }
    ensures greatest { (parts : List (ℤ × ℕ)) (d : ℕ) → DividesAll d parts → d ∣ content parts }
{}

/// A form over the terms of a store stays one, and the same, as the store grows.
pub fn forms_stay()
    ensures form { (old new : List Tree) (l : Lin) → IsForm old l → Extends old new → IsForm new l }
    ensures same { (old new : List Tree) (l : Lin) → IsForm old l → Extends old new → form_at new l ≡ form_at old l }
{}
