//! What stays of assertions in force as a store grows. Nothing is run.
ghost use Rattle.std.specs.Prelude.{List};
ghost use Rattle.qterm.specs.Tree.{Tree};
ghost use Rattle.qterm.specs.Store.{Extends};
ghost use Rattle.term_limits.specs.Limits.{Counted, IsCounted};

/// Assertions whose subterms are found in a store are so in each store that it grows to.
pub fn counted_terms_stay()
    ensures { (ts us : List Tree) (c : Counted) → Extends ts us → IsCounted ts c → IsCounted us c }
{}
