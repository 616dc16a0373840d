//! The laws of the solver's answers.
ghost use Rattle.std.specs.Prelude.{◌≡◌, ◌<◌, ℕ, Bool, List, [], length, map, Contains, true, Some};
ghost use Rattle.qterm.specs.declared.name.Name.{Name};
ghost use Rattle.qterm.specs.Tree.{Tree, Var};
ghost use Rattle.qterm.specs.Store.{trees_of};
ghost use Rattle.qsubst.specs.Names.{names_of};
ghost use Rattle.qeval.specs.Value.{Valuation, IsSorted};
ghost use Rattle.model_conv.specs.Lift.{lifted};
ghost use Rattle.sat_core.specs.Models as solver;
ghost use Rattle.reducer_iface.specs.SatRow.{sets};
ghost use Rattle.qgoal.specs.Meaning.{IsModel, HasName};
ghost use Rattle.rup.specs.declared.literal.Lit.{Lit as Numbered};
ghost use Rattle.sat_core.specs.declared.solver.RupLine.{RupLine};
ghost use Rattle.sat_core.specs.Lines.{learnt, refutes};
ghost use Rattle.sat_clauses.specs.Coding.{name_at, HasNamesOf, AllBelow, AreRead, AreDifferent, IsFirstOther};
ghost use Rattle.sat_lines.specs.Lines.{line_trees, LinesBelow};
ghost use Rattle.reducer_iface.specs.Lemmas.{first_other, AreClauses, AreLemmas};
ghost use Rattle.sat_lines.specs.Terms.{AreBool};
ghost use Rattle.sat_rows.specs.Names.{AreNames};

use sat_core::refuted_clauses_have_no_model;

/// Lines that were learnt from the clauses of formulas are lemmas over the formulas.
pub fn lines_are_lemmas()
    ensures { (f : ℕ → Name) (v : ℕ) (cs : List Tree) (known : List (List Numbered)) (lines : List RupLine) → AreDifferent v f → AreBool v f → ((k : ℕ) → k < v → HasName cs (f k)) → AreRead f cs known → AllBelow v known → LinesBelow v lines → learnt known lines ≡ true → AreLemmas cs [] (line_trees f lines) }
{}

/// Values under which the clauses of formulas are true make a model of the formulas, where each name is set to its value.
pub fn found_values_are_a_model()
    ensures { (f : ℕ → Name) (ns : List Name) (cs : List Tree) (known : List (List Numbered)) (values : List Bool) → AreNames ns f → AreDifferent (length ns) f → AreBool (length ns) f → AreRead f cs known → AllBelow (length ns) known → solver.IsModel (length ns) known values → (V : Valuation) → IsSorted V → IsModel (lifted (sets ns values) V) cs }
{}

/// Formulas whose clauses are refuted have no model.
pub fn refuted_lists_have_no_model()
    ensures { (f : ℕ → Name) (cs : List Tree) (known : List (List Numbered)) (lines : List RupLine) → AreRead f cs known → refutes known lines ≡ true → (V : Valuation) → IsModel V cs → ⊥ }
{
    refuted_clauses_have_no_model();
}

/// Where a list has the terms of the names of formulas in name order, its numbers stand for those names, each
/// of which occurs, and the list has each name of a formula.
pub fn names_are_numbered()
    ensures count { (ts : List Tree) (vars : List ℕ) (cs : List Tree) → trees_of ts vars ≡ map Var (names_of cs) → length vars ≡ length (names_of cs) }
    ensures names { (ts : List Tree) (vars : List ℕ) (cs : List Tree) → trees_of ts vars ≡ map Var (names_of cs) → AreNames (names_of cs) (name_at ts vars) }
    ensures there { (ts : List Tree) (vars : List ℕ) (cs : List Tree) → trees_of ts vars ≡ map Var (names_of cs) → (t : Tree) → Contains cs t → HasNamesOf ts vars t }
    ensures occur { (ts : List Tree) (vars : List ℕ) (cs : List Tree) → trees_of ts vars ≡ map Var (names_of cs) → (k : ℕ) → k < length vars → HasName cs (name_at ts vars k) }
{}

/// Formulas that are read are clauses, and the first that is none is the first other.
pub fn read_lists_are_clauses()
    ensures clauses { (f : ℕ → Name) (cs : List Tree) (known : List (List Numbered)) → AreRead f cs known → AreClauses cs }
    ensures other { (f : ℕ → Name) (cs : List Tree) (i : ℕ) → IsFirstOther f cs i → first_other 1 cs ≡ Some i }
{}
