//! The cycle: a strategy is run on a goal at a depth, by its form.
//!
//! A call runs a part of the strategy that the call round it runs, so that calls stand in one another as deep as forms do: 64 deep for
//! a strategy that has a text. Turns of a repeat and parts of a `then` don't count.
ghost use Rattle.std.specs.Prelude.{◌≡◌, ◌≤◌, ◌<◌, ◌+◌, true, ℤ, length, drop, reverse, is_some};
ghost use Rattle.qterm.specs.Store.{Extends};
ghost use Rattle.qgoal.specs.Goal.{goal_tree};
ghost use Rattle.strat_text.specs.declared.strategy.Strategy.{Strategy};
ghost use Rattle.strat_text.specs.declared.strategy.Strategy.TheVariants as strategy;
ghost use Rattle.strat_text.specs.Allowed.{are_settings};
ghost use Rattle.race_word.specs.declared.view.View.{View};
ghost use Rattle.race_word.specs.Keeps.{Keeps};
ghost use Rattle.deriv.specs.declared.params.Params.{Params};
ghost use Rattle.deriv.specs.Derives.{InOrder, Chains};
ghost use Rattle.lang_runs.specs.Strategies.{runs, AllRun};
ghost use Rattle.lang_runs.specs.Runs.{HasRun};
ghost use Rattle.lang_runs.specs.Drawn.{RunTally};
ghost use Rattle.lang_runs.specs.Forms.{Surrounds};
ghost use Rattle.lang_rows.specs.Beside.{AreBeside};
ghost use Rattle.lang_rows.specs.Drawn.{BesideTally};
ghost use Rattle.tac_lang.specs.Ready.{setting, IsReady};
ghost use Rattle.tac_lang.specs.Chain.{rest_of};
ghost use Rattle.tac_lang.specs.Levels.{Task, task, IsUnderWay, IsLevel, Waits, IsTurn, IsAt, left_in, left_under};
ghost use Rattle.tac_lang.specs.declared.level.Turn.TheVariants as variants;

use crate::leaf::{run_fail_if, run_prim};
use crate::level::{Level, Turn, begun, finished, resumed, stepped};
use crate::part::{chosen, is_true, part_at, with_failure, with_part};
use crate::table::Table;
use lang_rows::{Beside, Part, beside_first_failed, finish_beside, finish_beside_sat, is_sat};
use lang_runs::{
    Around, Failures, Ran, RunStop, copied, lesser, rests_alone, stopped, surround, tried,
    tried_all,
};
use model_conv::Discarded;
use qgoal::Goal;
use qterm::Store;
use race_word::{Racer, Races};
use reducer_iface::Env;
use std::alloc::Global;
use std::slice;
use strat_text::{ParamKey, ProbeExpr, Strategy};

/// How deep a derivation goes.
const DEEPEST: u32 = 2048;

/// Runs a strategy at a depth. One past the deepest it is stopped.
#[cycle(run)]
pub(crate) fn run_at<T: Table>(
    alloc: Global,
    table: &T,
    strategy: &Strategy,
    store: &mut Store,
    goal: &Goal,
    env: &Env,
    races: &Races,
    racer: &mut Racer,
    depth: u32,
) -> Result<Ran, RunStop>
    requires runs { runs (T.kinds table.now) strategy.now ≡ true }
    requires ready { IsReady races.now racer.old store.old goal.now env.now depth }
    ensures run { HasRun (setting (T.kinds table.now) T.value_of env.now) store.new strategy.now (goal_tree store.old goal.now) env.now.limit env.now.params depth racer.old.chain racer.new.view result }
    ensures draws { RunTally racer.old.view racer.new.view result }
    ensures store { Extends store.old store.new }
    ensures racer { Keeps racer.old racer.new }
{
    if depth > DEEPEST {
        return stopped(goal, env.limit);
    }
    match strategy {
        Strategy::Prim(name) => {
            run_prim(alloc, table, name, store, goal, env, races, racer, depth)
        }
        Strategy::Then(parts) => {
            run_parts(
                alloc,
                table,
                parts.as_slice(),
                None,
                store,
                goal,
                env,
                races,
                racer,
                depth,
            )
        }
        Strategy::Repeat(part, turns) => {
            run_parts(
                alloc,
                table,
                slice::from_ref(part.get()),
                Some(*turns),
                store,
                goal,
                env,
                races,
                racer,
                depth,
            )
        }
        Strategy::ParThen(part, other) => {
            run_par_then(
                alloc,
                table,
                part.get(),
                other.get(),
                store,
                goal,
                env,
                races,
                racer,
                depth,
            )
        }
        Strategy::OrElse(parts) => {
            run_tries(
                alloc,
                table,
                parts.as_slice(),
                store,
                goal,
                env,
                races,
                racer,
                depth,
            )
        }
        Strategy::ParOr(parts) => {
            run_tries(
                alloc,
                table,
                parts.as_slice(),
                store,
                goal,
                env,
                races,
                racer,
                depth,
            )
        }
        Strategy::If(expr, part, other) => {
            run_if(
                alloc,
                table,
                expr,
                part.get(),
                other.get(),
                store,
                goal,
                env,
                races,
                racer,
                depth,
            )
        }
        Strategy::When(expr, part) => {
            run_when(
                alloc,
                table,
                expr,
                part.get(),
                store,
                goal,
                env,
                races,
                racer,
                depth,
            )
        }
        Strategy::FailIf(expr) => {
            run_fail_if(alloc, table, expr, store, goal, env, races, racer, depth)
        }
        Strategy::Params(part, settings) => {
            run_params(
                alloc,
                table,
                part.get(),
                settings.as_slice(),
                store,
                goal,
                env,
                races,
                racer,
                depth,
            )
        }
        Strategy::TryFor(part, most) => {
            run_try_for(
                alloc,
                table,
                part.get(),
                *most,
                store,
                goal,
                env,
                races,
                racer,
                depth,
            )
        }
    }
}

/// Runs the part that the probe chooses.
#[cycle(run)]
fn run_if<T: Table>(
    alloc: Global,
    table: &T,
    expr: &ProbeExpr,
    part: &Strategy,
    other: &Strategy,
    store: &mut Store,
    goal: &Goal,
    env: &Env,
    races: &Races,
    racer: &mut Racer,
    depth: u32,
) -> Result<Ran, RunStop>
    requires part { runs (T.kinds table.now) part.now ≡ true }
    requires other { runs (T.kinds table.now) other.now ≡ true }
    requires ready { IsReady races.now racer.old store.old goal.now env.now (depth + 1) }
    ensures run { HasRun (setting (T.kinds table.now) T.value_of env.now) store.new (strategy.If expr.now part.now other.now) (goal_tree store.old goal.now) env.now.limit env.now.params depth racer.old.chain racer.new.view result }
    ensures draws { RunTally racer.old.view racer.new.view result }
    ensures store { Extends store.old store.new }
    ensures racer { Keeps racer.old racer.new }
{
    let value = table.probe(alloc, store, goal, expr)?;
    let part = chosen(value, part, other);
    run_around(
        alloc,
        table,
        Around::Test(value),
        env.limit,
        part,
        store,
        goal,
        env,
        races,
        racer,
        depth,
    )
}

/// Runs the part where the probe is true, and gives the goal alone where it isn't.
#[cycle(run)]
fn run_when<T: Table>(
    alloc: Global,
    table: &T,
    expr: &ProbeExpr,
    part: &Strategy,
    store: &mut Store,
    goal: &Goal,
    env: &Env,
    races: &Races,
    racer: &mut Racer,
    depth: u32,
) -> Result<Ran, RunStop>
    requires part { runs (T.kinds table.now) part.now ≡ true }
    requires ready { IsReady races.now racer.old store.old goal.now env.now (depth + 1) }
    ensures run { HasRun (setting (T.kinds table.now) T.value_of env.now) store.new (strategy.When expr.now part.now) (goal_tree store.old goal.now) env.now.limit env.now.params depth racer.old.chain racer.new.view result }
    ensures draws { RunTally racer.old.view racer.new.view result }
    ensures store { Extends store.old store.new }
    ensures racer { Keeps racer.old racer.new }
{
    let value = table.probe(alloc, store, goal, expr)?;
    if is_true(value) {
        return run_around(
            alloc,
            table,
            Around::Test(value),
            env.limit,
            part,
            store,
            goal,
            env,
            races,
            racer,
            depth,
        );
    }
    rests_alone(alloc, goal, env.limit, value)
}

/// Runs the part with these parameters set.
#[cycle(run)]
fn run_params<T: Table>(
    alloc: Global,
    table: &T,
    part: &Strategy,
    settings: &[(ParamKey, i128)],
    store: &mut Store,
    goal: &Goal,
    env: &Env,
    races: &Races,
    racer: &mut Racer,
    depth: u32,
) -> Result<Ran, RunStop>
    requires part { runs (T.kinds table.now) part.now ≡ true }
    requires settings { are_settings settings.now ≡ true }
    requires ready { IsReady races.now racer.old store.old goal.now env.now (depth + 1) }
    ensures run { HasRun (setting (T.kinds table.now) T.value_of env.now) store.new (strategy.Params part.now settings.now) (goal_tree store.old goal.now) env.now.limit env.now.params depth racer.old.chain racer.new.view result }
    ensures draws { RunTally racer.old.view racer.new.view result }
    ensures store { Extends store.old store.new }
    ensures racer { Keeps racer.old racer.new }
{
    let below = Env {
        params: env.params.with_all(settings),
        ..*env
    };
    run_around(
        alloc,
        table,
        Around::Wrap,
        env.limit,
        part,
        store,
        goal,
        &below,
        races,
        racer,
        depth,
    )
}

/// Runs the part under the lesser of the number and the limit.
#[cycle(run)]
fn run_try_for<T: Table>(
    alloc: Global,
    table: &T,
    part: &Strategy,
    most: u64,
    store: &mut Store,
    goal: &Goal,
    env: &Env,
    races: &Races,
    racer: &mut Racer,
    depth: u32,
) -> Result<Ran, RunStop>
    requires part { runs (T.kinds table.now) part.now ≡ true }
    requires ready { IsReady races.now racer.old store.old goal.now env.now (depth + 1) }
    ensures run { HasRun (setting (T.kinds table.now) T.value_of env.now) store.new (strategy.TryFor part.now most) (goal_tree store.old goal.now) env.now.limit env.now.params depth racer.old.chain racer.new.view result }
    ensures draws { RunTally racer.old.view racer.new.view result }
    ensures store { Extends store.old store.new }
    ensures racer { Keeps racer.old racer.new }
{
    let below = Env {
        limit: lesser(most, env.limit),
        ..*env
    };
    run_around(
        alloc,
        table,
        Around::Wrap,
        env.limit,
        part,
        store,
        goal,
        &below,
        races,
        racer,
        depth,
    )
}

/// Runs the part, and puts the node of a strategy around its run, whose limit is another than the part's.
#[cycle(run)]
fn run_around<T: Table>(
    alloc: Global,
    table: &T,
    how: Around,
    limit: Option<u64>,
    part: &Strategy,
    store: &mut Store,
    goal: &Goal,
    env: &Env,
    races: &Races,
    racer: &mut Racer,
    depth: u32,
) -> Result<Ran, RunStop>
    requires part { runs (T.kinds table.now) part.now ≡ true }
    requires ready { IsReady races.now racer.old store.old goal.now env.now (depth + 1) }
    ensures run { (s : Strategy) (ps : Params) → Surrounds (setting (T.kinds table.now) T.value_of env.now) (goal_tree store.old goal.now) limit ps how s part.now env.now.limit env.now.params → HasRun (setting (T.kinds table.now) T.value_of env.now) store.new s (goal_tree store.old goal.now) limit ps depth racer.old.chain racer.new.view result }
    ensures draws { RunTally racer.old.view racer.new.view result }
    ensures store { Extends store.old store.new }
    ensures racer { Keeps racer.old racer.new }
{
    let kept = copied(goal)?;
    let ran = run_at(
        alloc,
        table,
        part,
        store,
        goal,
        env,
        races,
        racer,
        depth + 1,
    );
    surround(alloc, kept, limit, how, ran)
}

/// Runs the parts in order until one succeeds.
#[cycle(run)]
fn run_tries<T: Table>(
    alloc: Global,
    table: &T,
    parts: &[Strategy],
    store: &mut Store,
    goal: &Goal,
    env: &Env,
    races: &Races,
    racer: &mut Racer,
    depth: u32,
) -> Result<Ran, RunStop>
    requires parts { AllRun (T.kinds table.now) parts.now }
    requires some { 1 ≤ length parts.now }
    requires ready { IsReady races.now racer.old store.old goal.now env.now (depth + 1) }
    ensures run { (s : Strategy) → InOrder s parts.now → HasRun (setting (T.kinds table.now) T.value_of env.now) store.new s (goal_tree store.old goal.now) env.now.limit env.now.params depth racer.old.chain racer.new.view result }
    ensures draws { RunTally racer.old.view racer.new.view result }
    ensures store { Extends store.old store.new }
    ensures racer { Keeps racer.old racer.new }
{
    let kept = copied(goal)?;
    let mut failures = Failures::new(alloc, env.limit);
    for part in parts {
        let below = Env {
            limit: failures.left,
            ..*env
        };
        match run_at(
            alloc,
            table,
            part,
            store,
            goal,
            &below,
            races,
            racer,
            depth + 1,
        ) {
            Ok(ran) => return tried(alloc, kept, env.limit, failures, ran),
            Err(RunStop::Failed(deriv)) => failures = with_failure(failures, deriv)?,
            Err(RunStop::Cancelled { seen }) => return Err(RunStop::Cancelled { seen }),
            Err(RunStop::Memory) => return Err(RunStop::Memory),
        }
    }
    tried_all(kept, env.limit, failures)
}

/// Runs a chain: the parts of a `then`, or so many turns of a repeat.
///
/// The run of each part stands in that of the part before, as deep as the derivation. All of them are levels on the heap: what recurses
/// is the run of a part, whose strategy is one less deep.
#[cycle(run)]
fn run_parts<T: Table>(
    alloc: Global,
    table: &T,
    parts: &[Strategy],
    turns: Option<u64>,
    store: &mut Store,
    goal: &Goal,
    env: &Env,
    races: &Races,
    racer: &mut Racer,
    depth: u32,
) -> Result<Ran, RunStop>
    requires parts { AllRun (T.kinds table.now) parts.now }
    requires some { 1 ≤ length parts.now }
    requires ready { IsReady races.now racer.old store.old goal.now env.now depth }
    ensures run { HasRun (setting (T.kinds table.now) T.value_of env.now) store.new (rest_of parts.now turns) (goal_tree store.old goal.now) env.now.limit env.now.params depth racer.old.chain racer.new.view result }
    ensures draws { RunTally racer.old.view racer.new.view result }
    ensures store { Extends store.old store.new }
    ensures racer { Keeps racer.old racer.new }
{
    let mut turn = start(
        alloc, table, parts, 0, turns, store, goal, env, races, racer, depth,
    );
    let mut levels = Vec::new(alloc);
    loop {
        match turn {
            Turn::Down(level) => {
                turn = go_down(
                    alloc,
                    table,
                    parts,
                    level,
                    &mut levels,
                    store,
                    env,
                    races,
                    racer,
                );
            }
            Turn::Ended(answer) => match levels.pop() {
                Some(level) => turn = resumed(alloc, level, answer),
                None => {
                    levels.destroy_empty();
                    return answer;
                }
            },
        }
    }
}

/// Runs the rest of a chain on the next goal of a level up to a level more, or ends the level where the rest ran on all.
#[cycle(run)]
fn go_down<T: Table>(
    alloc: Global,
    table: &T,
    parts: &[Strategy],
    level: Level,
    levels: &mut Vec<Level>,
    store: &mut Store,
    env: &Env,
    races: &Races,
    racer: &mut Racer,
) -> Turn
    requires parts { AllRun (T.kinds table.now) parts.now }
    requires level { IsUnderWay (setting (T.kinds table.now) T.value_of env.now) racer.old.view.top store.old parts.now env.now.params level }
    requires ready { IsReady races.now racer.old store.old level.goal env.now (level.depth + 1) }
    ensures at { (whole t : Task) → IsLevel (setting (T.kinds table.now) T.value_of env.now) racer.old.view.top store.old parts.now env.now.params t racer.old.view level → Waits (setting (T.kinds table.now) T.value_of env.now) racer.old.view.top store.old parts.now env.now.params whole (reverse levels.old.items) t → IsAt (setting (T.kinds table.now) T.value_of env.now) store.new parts.now env.now.params racer.old.chain racer.new.view whole (reverse levels.new.items) result }
    ensures less { (t : Task) → IsLevel (setting (T.kinds table.now) T.value_of env.now) racer.old.view.top store.old parts.now env.now.params t racer.old.view level → left_in result + left_under (reverse levels.new.items) < left_in (variants.Down level) + left_under (reverse levels.old.items) }
    ensures store { Extends store.old store.new }
    ensures racer { Keeps racer.old racer.new }
{
    match level.row.next() {
        Some(next) => {
            let below = Env {
                limit: level.row.left,
                ..*env
            };
            let turn = start(
                alloc,
                table,
                parts,
                level.at,
                level.turns,
                store,
                next,
                &below,
                races,
                racer,
                level.depth + 1,
            );
            stepped(alloc, level, levels, turn)
        }
        None => Turn::Ended(finished(alloc, level)),
    }
}

/// Runs what remains of a chain from a place on, up to its first level.
#[cycle(run)]
fn start<T: Table>(
    alloc: Global,
    table: &T,
    parts: &[Strategy],
    at: usize,
    turns: Option<u64>,
    store: &mut Store,
    goal: &Goal,
    env: &Env,
    races: &Races,
    racer: &mut Racer,
    depth: u32,
) -> Turn
    requires parts { AllRun (T.kinds table.now) parts.now }
    requires some { at < length parts.now }
    requires ready { IsReady races.now racer.old store.old goal.now env.now depth }
    ensures turn { IsTurn (setting (T.kinds table.now) T.value_of env.now) store.new parts.now env.now.params racer.old.chain racer.new.view (task (rest_of (drop at parts.now) turns) (goal_tree store.old goal.now) env.now.limit depth racer.old.view) result }
    ensures store { Extends store.old store.new }
    ensures racer { Keeps racer.old racer.new }
{
    if depth > DEEPEST {
        return Turn::Ended(stopped(goal, env.limit));
    }
    let part = part_at(parts, at);
    match turns {
        Some(turns) => {
            if turns == 0 {
                return Turn::Ended(rests_alone(alloc, goal, env.limit, 0));
            }
            run_first(
                alloc,
                table,
                parts,
                part,
                at,
                Some(turns - 1),
                store,
                goal,
                env,
                races,
                racer,
                depth,
            )
        }
        None => {
            if at + 1 == parts.len() {
                return Turn::Ended(run_at(
                    alloc, table, part, store, goal, env, races, racer, depth,
                ));
            }
            run_first(
                alloc,
                table,
                parts,
                part,
                at + 1,
                None,
                store,
                goal,
                env,
                races,
                racer,
                depth,
            )
        }
    }
}

/// Runs the first part of a chain, whose rest begins at a place.
#[cycle(run)]
fn run_first<T: Table>(
    alloc: Global,
    table: &T,
    parts: &[Strategy],
    part: &Strategy,
    at: usize,
    turns: Option<u64>,
    store: &mut Store,
    goal: &Goal,
    env: &Env,
    races: &Races,
    racer: &mut Racer,
    depth: u32,
) -> Turn
    requires part { runs (T.kinds table.now) part.now ≡ true }
    requires some { at < length parts.now }
    requires ready { IsReady races.now racer.old store.old goal.now env.now (depth + 1) }
    ensures turn { (s : Strategy) → Chains s part.now (rest_of (drop at parts.now) turns) (is_some turns) → IsTurn (setting (T.kinds table.now) T.value_of env.now) store.new parts.now env.now.params racer.old.chain racer.new.view (task s (goal_tree store.old goal.now) env.now.limit depth racer.old.view) result }
    ensures store { Extends store.old store.new }
    ensures racer { Keeps racer.old racer.new }
{
    let Ok(kept) = copied(goal) else {
        return Turn::Ended(Err(RunStop::Memory));
    };
    let first = run_at(
        alloc,
        table,
        part,
        store,
        goal,
        env,
        races,
        racer,
        depth + 1,
    );
    begun(alloc, store, kept, env.limit, depth, at, turns, first)
}

/// Runs the first part of a `par-then`, and the second on its goals.
#[cycle(run)]
fn run_par_then<T: Table>(
    alloc: Global,
    table: &T,
    part: &Strategy,
    other: &Strategy,
    store: &mut Store,
    goal: &Goal,
    env: &Env,
    races: &Races,
    racer: &mut Racer,
    depth: u32,
) -> Result<Ran, RunStop>
    requires part { runs (T.kinds table.now) part.now ≡ true }
    requires other { runs (T.kinds table.now) other.now ≡ true }
    requires ready { IsReady races.now racer.old store.old goal.now env.now (depth + 1) }
    ensures run { HasRun (setting (T.kinds table.now) T.value_of env.now) store.new (strategy.ParThen part.now other.now) (goal_tree store.old goal.now) env.now.limit env.now.params depth racer.old.chain racer.new.view result }
    ensures draws { RunTally racer.old.view racer.new.view result }
    ensures store { Extends store.old store.new }
    ensures racer { Keeps racer.old racer.new }
{
    let kept = copied(goal)?;
    match run_at(
        alloc,
        table,
        part,
        store,
        goal,
        env,
        races,
        racer,
        depth + 1,
    ) {
        Ok(first) => {
            let beside = Beside::new(alloc, first, env.limit);
            run_beside(
                alloc, table, part, other, kept, beside, store, env, races, racer, depth,
            )
        }
        Err(RunStop::Failed(first)) => beside_first_failed(alloc, kept, env.limit, first),
        Err(RunStop::Cancelled { seen }) => Err(RunStop::Cancelled { seen }),
        Err(RunStop::Memory) => Err(RunStop::Memory),
    }
}

/// Runs the second part of a `par-then` on the goals of the first, in order, until one run is sat.
#[cycle(run)]
fn run_beside<T: Table>(
    alloc: Global,
    table: &T,
    part: &Strategy,
    other: &Strategy,
    goal: Goal,
    beside: Beside,
    store: &mut Store,
    env: &Env,
    races: &Races,
    racer: &mut Racer,
    depth: u32,
) -> Result<Ran, RunStop>
    requires other { runs (T.kinds table.now) other.now ≡ true }
    requires ready { IsReady races.now racer.old store.old goal env.now (depth + 1) }
    requires beside { AreBeside (setting (T.kinds table.now) T.value_of env.now) racer.old.view.top store.old part.now other.now (goal_tree store.old goal) env.now.limit env.now.params (depth + 1) beside }
    ensures run { HasRun (setting (T.kinds table.now) T.value_of env.now) store.new (strategy.ParThen part.now other.now) (goal_tree store.old goal) env.now.limit env.now.params depth racer.old.chain racer.new.view result }
    ensures draws { (before : View) → BesideTally before racer.old.view beside → RunTally before racer.new.view result }
    ensures store { Extends store.old store.new }
    ensures racer { Keeps racer.old racer.new }
{
    let mut beside = beside;
    while let Some(next) = beside.next() {
        let below = Env {
            limit: beside.left,
            ..*env
        };
        match run_at(
            alloc,
            table,
            other,
            store,
            next,
            &below,
            races,
            racer,
            depth + 1,
        ) {
            Ok(ran) => {
                if is_sat(&ran) {
                    return finish_beside_sat(alloc, goal, env.limit, beside, ran);
                }
                beside = with_part(beside, Part::Ended(ran))?;
            }
            Err(RunStop::Failed(deriv)) => beside = with_part(beside, Part::Stopped(deriv))?,
            Err(RunStop::Cancelled { seen }) => {
                beside.discard(Discarded::Cancelled);
                return Err(RunStop::Cancelled { seen });
            }
            Err(RunStop::Memory) => {
                beside.discard(Discarded::Memory);
                return Err(RunStop::Memory);
            }
        }
    }
    finish_beside(alloc, goal, env.limit, beside)
}
