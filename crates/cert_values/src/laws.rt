//! The laws of the rules, each the contract of a function that does nothing: a caller that calls it may use the law in its proofs.
ghost use Rattle.std.specs.Prelude.{ℕ};
ghost use Rattle.qterm.specs.Tree.{Tree};
ghost use Rattle.tac_cert.specs.Intervals as intervals;
ghost use Rattle.tac_cert.specs.Tables as tables;
ghost use Rattle.tac_cert.specs.Choices as choices;
ghost use Rattle.cert_items.specs.Truth.{KeepsSatisfiable};
ghost use Rattle.cert_values.specs.Laws.{HoldsValues, FollowsByTable};

/// The value of a term whose names keep within their bounds lies in its interval.
pub fn holds_values()
    ensures { HoldsValues }
{}

/// What follows from a formula by its truth table is true wherever the formula is.
pub fn follows_by_table()
    ensures { FollowsByTable }
{}

/// Where some valuation makes all items true, some valuation makes also those true that a rule gives.
pub fn keep_satisfiable()
    ensures range { (i : ℕ) → KeepsSatisfiable (λ items. intervals.range items i) }
    ensures table { (i : ℕ) (c : Tree) → KeepsSatisfiable (λ items. tables.table items i c) }
    ensures ite { (i : ℕ) → KeepsSatisfiable (λ items. choices.ite_parts items i) }
{}
