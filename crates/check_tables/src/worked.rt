//! Worked derivations, as a law: the definition of a derivation has each of them. Nothing is run.
ghost use Rattle.std.specs.Prelude.{ℕ, [], ◌∷◌, None, Some};
ghost use Rattle.strat_text.specs.declared.strategy.Strategy.{Strategy};
ghost use Rattle.strat_text.specs.declared.strategy.Strategy.TheVariants as strategy;
ghost use Rattle.deriv.specs.Params.{defaults};
ghost use Rattle.deriv.specs.Outcome.{Failed, TooDeep};
ghost use Rattle.deriv.specs.Trees as kept;
ghost use Rattle.deriv.specs.Trees.{Der, der, none, more, no_pairs, pair};
ghost use Rattle.deriv.specs.Derives.{Derives};
ghost use Rattle.check_tables.specs.Worked.{skip, fail, check_by, one, empty, skipped, failed, Has, gives, fails};

/// Derivations of small strategies of skip and fail, each on the goal of one name or on the empty one.
pub fn worked_derivations()
    ensures or_else { (workers : ℕ) → Has (check_by workers) (strategy.OrElse (fail ∷ skip ∷ [])) one (gives one (kept.Tried (more (failed one None) none) (skipped one None))) }
    ensures or_else_fails { (workers : ℕ) → Has (check_by workers) (strategy.OrElse (fail ∷ fail ∷ [])) one (fails one (kept.TriedAll (more (failed one None) (more (failed one None) none)))) }
    ensures then_fails { (workers : ℕ) → Has (check_by workers) (strategy.Then (skip ∷ fail ∷ [])) one (fails one (kept.Seq (skipped one None) (more (failed one None) none))) }
    ensures then_gives { (workers : ℕ) → Has (check_by workers) (strategy.Then (skip ∷ skip ∷ [])) one (gives one (kept.Seq (skipped one None) (more (skipped one None) none))) }
    ensures then_sat { (workers : ℕ) → Has (check_by workers) (strategy.Then (skip ∷ skip ∷ [])) empty (gives empty (kept.Seq (skipped empty None) (more (skipped empty None) none))) }
    ensures repeat_ends { (workers : ℕ) → Has (check_by workers) (strategy.Repeat skip 3) one (gives one (kept.Seq (skipped one None) none)) }
    ensures tries { (workers : ℕ) → Has (check_by workers) (strategy.TryFor skip 5) one (gives one (kept.Wrap (skipped one (Some 5)))) }
    ensures par_then { (workers : ℕ) → Has (check_by workers) (strategy.ParThen skip skip) one (gives one (kept.ParSeq (skipped one None) (pair 0 (skipped one None) no_pairs))) }
    ensures too_deep { (workers : ℕ) → Derives (check_by workers) (der one None 0 (Failed TooDeep) kept.Stopped) skip one None defaults 2049 }
    ensures raced { Has (check_by 2) (strategy.ParOr (fail ∷ skip ∷ [])) one (gives one (kept.Race 1 (skipped one None))) }
{}
