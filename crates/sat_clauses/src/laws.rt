//! What formulas and the clauses read from them have in common, each the contract of a function that does nothing.
ghost use Rattle.std.specs.Prelude.{◌≡◌, ℕ, List, true, Some};
ghost use Rattle.std.specs.List.{list_all};
ghost use Rattle.qterm.specs.declared.name.Name.{Name};
ghost use Rattle.qterm.specs.Tree.{Tree};
ghost use Rattle.qeval.specs.Value.{Valuation};
ghost use Rattle.qeval.specs.Eval.{truth};
ghost use Rattle.rup.specs.declared.literal.Lit.{Lit as Numbered};
ghost use Rattle.rup.specs.Literals.{all_true, has_pair, within};
ghost use Rattle.rup.specs.Rup.{rup};
ghost use Rattle.tac_cert.specs.Accepts.{as_items};
ghost use Rattle.tac_cert.specs.Clauses.{lits_of};
ghost use Rattle.tac_cert.specs.Rup.{is_rup};
ghost use Rattle.tac_cert.specs.Rup as named;
ghost use Rattle.sat_clauses.specs.Coding.{AreBelow, AllBelow, AreRead, AreDifferent, clause_with};
ghost use Rattle.sat_clauses.specs.Models.{value_by};

/// A formula that is a clause follows by reverse unit propagation from formulas that are clauses where the numbered clause follows
/// from the numbered clauses, over the same hints. It has a literal beside its negation, or contains another, exactly where the
/// numbered one does.
pub fn lines_follow_from_formulas()
    ensures follows { (f : ℕ → Name) (v : ℕ) (ts : List Tree) (known : List (List Numbered)) (t : Tree) (c : List Numbered) (hints : List ℕ) → AreDifferent v f → AreRead f ts known → AllBelow v known → AreBelow v c → lits_of t ≡ Some (clause_with f c) → rup known c hints ≡ true → is_rup (as_items ts) t hints ≡ true }
    ensures pairs { (f : ℕ → Name) (v : ℕ) (c : List Numbered) → AreDifferent v f → AreBelow v c → named.has_pair (clause_with f c) ≡ has_pair c }
    ensures contains { (f : ℕ → Name) (v : ℕ) (c d : List Numbered) → AreDifferent v f → AreBelow v c → AreBelow v d → list_all (named.has (clause_with f c)) (clause_with f d) ≡ within d c }
{}

/// Formulas that are clauses are all true under a valuation exactly where the numbered clauses are, under the values of the names.
pub fn clauses_have_the_models()
    ensures { (V : Valuation) (f : ℕ → Name) (ts : List Tree) (known : List (List Numbered)) → AreRead f ts known → list_all (truth V) ts ≡ all_true (value_by V f) known }
{}
