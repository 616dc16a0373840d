//! What the answers of a search mean, each the contract of a function that does nothing.
ghost use Rattle.std.specs.Prelude.{◌≡◌, List, true};
ghost use Rattle.rup.specs.declared.literal.Lit.{Lit};
ghost use Rattle.sat_core.specs.declared.solver.RupLine.{RupLine};
ghost use Rattle.sat_core.specs.Lines.{refutes};
ghost use Rattle.sat_core.specs.Models.{HaveNoModel};

/// No values of the variables make clauses true that lines refute.
pub fn refuted_clauses_have_no_model()
    ensures { (clauses : List (List Lit)) (lines : List RupLine) → refutes clauses lines ≡ true → HaveNoModel clauses }
{}
