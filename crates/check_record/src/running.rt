//! A strategy is run on assertions, under a race table of its own.
ghost use Rattle.std.specs.Prelude.{◌≡◌, ◌≤◌, ◌+◌, ◌^◌, All, Err, IfOk, true};
ghost use Rattle.qterm.specs.declared.name.Sort.TheVariants.{Bool};
ghost use Rattle.qterm.specs.Store.{HasSort, Extends, trees_of};
ghost use Rattle.qgoal.specs.Goal.{HasGoal, goal_tree};
ghost use Rattle.qgoal.specs.declared.precision.Precision.{Precision};
ghost use Rattle.goal_depth.specs.Depths.{AreShallow};
ghost use Rattle.reducer_iface.specs.Depths.{IsShallow};
ghost use Rattle.lang_runs.specs.declared.ran.RunStop.TheVariants as stops;
ghost use Rattle.lang_runs.specs.Strategies.{runs};
ghost use Rattle.check_record.specs.Records.{setting_of, precise};
ghost use Rattle.check_record.specs.Ends.{HasEnded, HasTotal};

use crate::kept::copied;
use lang_runs::{Ran, RunStop};
use qgoal::{Goal, Precision};
use qterm::{Store, TermId};
use race_word::Races;
use reducer_iface::{Env, Params, Reducers, Registry};
use std::alloc::{AllocError, Global};
use strat_text::Strategy;
use tac_lang::run_strategy;

/// What came of a run, which has to be spent, and how many lemmas were drawn in all.
pub(crate) struct Ended {
    pub(crate) ran: Result<Ran, RunStop>,
    pub(crate) drawn: u64,
}

/// Runs the strategy on the precise goal of the assertions. Where there is no memory to begin, no lemma is drawn.
pub(crate) fn run(
    alloc: Global,
    registry: &Registry,
    store: &mut Store,
    asserts: &[TermId],
    strategy: &Strategy,
    workers: u32,
    pool: u64,
) -> Ended
    requires runs { runs (⟦<Registry as Reducers>⟧.kinds registry.now) strategy.now ≡ true }
    requires asserts { All (HasSort Bool store.old) asserts.now }
    requires shallow { AreShallow (trees_of store.old asserts.now) }
    requires workers { workers ≡ 1 }
    requires pool { (1 ≤ pool) × (pool ≤ 2 ^ 62) }
    ensures ended { HasEnded (setting_of (⟦<Registry as Reducers>⟧.kinds registry.now) workers pool) store.new strategy.now (precise (trees_of store.old asserts.now)) result.drawn result.ran }
    ensures total { HasTotal pool result.drawn result.ran }
    ensures drawn { result.drawn ≤ pool + workers }
    ensures store { Extends store.old store.new }
{
    match precise_goal(alloc, asserts) {
        Ok(goal) => race(alloc, registry, store, &goal, strategy, workers, pool),
        Err(_) => not_begun(),
    }
}

/// The run that there was no memory to begin.
fn not_begun() -> Ended
    ensures ran { result.ran ≡ Err stops.Memory }
    ensures drawn { result.drawn ≡ 0 }
{
    Ended {
        ran: Err(RunStop::Memory),
        drawn: 0,
    }
}

/// The precise goal of the assertions.
fn precise_goal(alloc: Global, asserts: &[TermId]) -> Result<Goal, AllocError>
    ensures formulas { IfOk result (λ goal. goal.formulas ≡ asserts.now) }
    ensures precision { IfOk result (λ goal. goal.precision ≡ Precision.Precise) }
{
    Ok(Goal {
        formulas: copied(alloc, asserts)?,
        precision: Precision::Precise,
    })
}

/// Runs the strategy on the goal, under a race table that is made for it and closed after it.
fn race(
    alloc: Global,
    registry: &Registry,
    store: &mut Store,
    goal: &Goal,
    strategy: &Strategy,
    workers: u32,
    pool: u64,
) -> Ended
    requires runs { runs (⟦<Registry as Reducers>⟧.kinds registry.now) strategy.now ≡ true }
    requires goal { HasGoal store.old goal.now }
    requires shallow { IsShallow (goal_tree store.old goal.now) }
    requires workers { workers ≡ 1 }
    requires pool { (1 ≤ pool) × (pool ≤ 2 ^ 62) }
    ensures ended { HasEnded (setting_of (⟦<Registry as Reducers>⟧.kinds registry.now) workers pool) store.new strategy.now (goal_tree store.old goal.now) result.drawn result.ran }
    ensures total { HasTotal pool result.drawn result.ran }
    ensures drawn { result.drawn ≤ pool + workers }
    ensures store { Extends store.old store.new }
{
    let env = Env {
        params: Params::new(),
        limit: None,
        workers,
        pool,
    };
    match Races::start(alloc, pool, workers) {
        Ok((races, mut racer)) => {
            let ran = run_strategy(
                alloc, registry, strategy, store, goal, &env, &races, &mut racer,
            );
            let totals = races.close(racer);
            Ended {
                ran,
                drawn: totals.lemmas,
            }
        }
        Err(_) => not_begun(),
    }
}
