//! Runs without a run below them.
ghost use Rattle.std.specs.Prelude.{◌≡◌, ◌+◌, IsSome, Some};
ghost use Rattle.qterm.specs.Store.{Extends};
ghost use Rattle.qgoal.specs.Goal.{goal_tree};
ghost use Rattle.strat_text.specs.declared.strategy.Strategy.TheVariants as strategy;
ghost use Rattle.race_word.specs.Keeps.{Keeps};
ghost use Rattle.reducer_iface.specs.Names.{kind_at};
ghost use Rattle.lang_runs.specs.Runs.{HasRun};
ghost use Rattle.lang_runs.specs.Drawn.{RunTally};
ghost use Rattle.tac_lang.specs.Ready.{setting, IsReady};

use crate::part::is_true;
use crate::table::Table;
use deriv::Kind;
use lang_runs::{Ran, RunStop, copied, prim, rests_alone, told};
use qgoal::Goal;
use qterm::Store;
use race_word::{Racer, Races};
use reducer_iface::Env;
use std::alloc::Global;
use strat_text::{ProbeExpr, ReducerName};

/// Runs the reducer of a name.
pub(crate) fn run_prim<T: Table>(
    alloc: Global,
    table: &T,
    name: &ReducerName,
    store: &mut Store,
    goal: &Goal,
    env: &Env,
    races: &Races,
    racer: &mut Racer,
    depth: u32,
) -> Result<Ran, RunStop>
    requires known { IsSome (kind_at (T.kinds table.now) name.now) }
    requires ready { IsReady races.now racer.old store.old goal.now env.now (depth + 1) }
    ensures run { HasRun (setting (T.kinds table.now) T.value_of env.now) store.new (strategy.Prim name.now) (goal_tree store.old goal.now) env.now.limit env.now.params depth racer.old.chain racer.new.view result }
    ensures draws { RunTally racer.old.view racer.new.view result }
    ensures store { Extends store.old store.new }
    ensures racer { Keeps racer.old racer.new }
{
    let kept_goal = copied(goal)?;
    let kept_name = ReducerName::new(alloc, name.text())?;
    let kind = kind_of(table, name);
    let answer = table.apply(alloc, name, store, goal, env, races, racer);
    prim(alloc, kept_goal, kept_name, kind, env.limit, answer)
}

/// The kind of the reducer of a name that is there.
fn kind_of<T: Table>(table: &T, name: &ReducerName) -> Kind
    requires known { IsSome (kind_at (T.kinds table.now) name.now) }
    ensures { kind_at (T.kinds table.now) name.now ≡ Some result }
{
    match table.kind(name) {
        Some(kind) => kind,
        None => unreachable!(),
    }
}

/// Fails where the probe is true, and gives the goal alone where it isn't.
pub(crate) fn run_fail_if<T: Table>(
    alloc: Global,
    table: &T,
    expr: &ProbeExpr,
    store: &mut Store,
    goal: &Goal,
    env: &Env,
    races: &Races,
    racer: &mut Racer,
    depth: u32,
) -> Result<Ran, RunStop>
    requires ready { IsReady races.now racer.old store.old goal.now env.now (depth + 1) }
    ensures run { HasRun (setting (T.kinds table.now) T.value_of env.now) store.new (strategy.FailIf expr.now) (goal_tree store.old goal.now) env.now.limit env.now.params depth racer.old.chain racer.new.view result }
    ensures draws { RunTally racer.old.view racer.new.view result }
    ensures store { Extends store.old store.new }
    ensures racer { Keeps racer.old racer.new }
{
    let value = table.probe(alloc, store, goal, expr)?;
    if is_true(value) {
        told(goal, env.limit, value)
    } else {
        rests_alone(alloc, goal, env.limit, value)
    }
}
