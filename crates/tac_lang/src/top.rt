//! The run of a strategy as its callers see it.
ghost use Rattle.std.specs.Prelude.{◌≡◌, ◌≤◌, true};
ghost use Rattle.qterm.specs.Store.{Extends};
ghost use Rattle.qgoal.specs.Goal.{HasGoal, goal_tree};
ghost use Rattle.race_word.specs.Keeps.{Keeps};
ghost use Rattle.race_word.specs.Runner.{IsOf};
ghost use Rattle.deriv.specs.Params.{AreInRange};
ghost use Rattle.reducer_iface.specs.Depths.{IsShallow};
ghost use Rattle.probe_set.specs.Probe.{probe_of};
ghost use Rattle.lang_runs.specs.Strategies.{runs};
ghost use Rattle.lang_runs.specs.Runs.{HasRun};
ghost use Rattle.lang_runs.specs.Drawn.{HasDrawn};
ghost use Rattle.tac_lang.specs.Ready.{setting};

use crate::run::run_at;
use lang_runs::{Ran, RunStop};
use qgoal::Goal;
use qterm::Store;
use race_word::{Racer, Races};
use reducer_iface::{Env, Reducers, Registry};
use std::alloc::Global;
use strat_text::Strategy;

/// Runs a strategy on a goal by one worker, by the reducers of a registry.
///
/// The strategy's names are in the registry, its forms have as many parts as they must, and its settings are in range. The answer is a
/// success, whose derivation, goals and converters are those of a derivation that the strategy has on the goal at depth 1; a derivation
/// that failed; or a winner that a poll of the racer gave, of a place on its chain with another branch. Terms that were in the store
/// stay, and the racer's chain, workers, branches and wins are as they were. Its draws rise by the lemmas that the reducers of the
/// derivation spent, but for those that an end of the pool noted before refused.
pub fn run_strategy(
    alloc: Global,
    registry: &Registry,
    strategy: &Strategy,
    store: &mut Store,
    goal: &Goal,
    env: &Env,
    races: &Races,
    racer: &mut Racer,
) -> Result<Ran, RunStop>
    requires runs { runs (⟦<Registry as Reducers>⟧.kinds registry.now) strategy.now ≡ true }
    requires racer { IsOf races.now racer.old }
    requires goal { HasGoal store.old goal.now }
    requires shallow { IsShallow (goal_tree store.old goal.now) }
    requires params { AreInRange env.now.params }
    requires workers { env.now.workers ≤ 1 }
    requires pool { env.now.pool ≡ races.now.terms.pool }
    ensures run { HasRun (setting (⟦<Registry as Reducers>⟧.kinds registry.now) probe_of env.now) store.new strategy.now (goal_tree store.old goal.now) env.now.limit env.now.params 1 racer.old.chain racer.new.view result }
    ensures draws { HasDrawn racer.old.view racer.new.view result }
    ensures store { Extends store.old store.new }
    ensures racer { Keeps racer.old racer.new }
{
    run_at(alloc, registry, strategy, store, goal, env, races, racer, 1)
}
