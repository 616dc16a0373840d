//! Levels of a chain: its parts run on the goals of the parts before them, and each waits for the run of the rest on a goal of its own.
ghost use Rattle.std.specs.Prelude.{◌≤◌, ◌<◌, ◌+◌, List, length, drop, reverse, is_some, All, IfOk, Ok, Err};
ghost use Rattle.qterm.specs.Tree.{Tree};
ghost use Rattle.qgoal.specs.Goal.{HasGoal, goal_tree};
ghost use Rattle.strat_text.specs.declared.strategy.Strategy.{Strategy};
ghost use Rattle.race_word.specs.declared.place.Place.{Place};
ghost use Rattle.race_word.specs.declared.view.View.{View};
ghost use Rattle.deriv.specs.declared.params.Params.{Params};
ghost use Rattle.deriv.specs.Derives.{DEEPEST, Chains};
ghost use Rattle.reducer_iface.specs.Depths.{IsShallow};
ghost use Rattle.lang_runs.specs.Runs.{Setting};
ghost use Rattle.lang_runs.specs.declared.ran.RunStop.TheVariants as stops;
ghost use Rattle.lang_rows.specs.Rows.{IsWhole};
ghost use Rattle.tac_lang.specs.Chain.{rest_of};
ghost use Rattle.tac_lang.specs.Levels.{Task, task, IsAnswer, IsLevel, IsWaiting, Waits, IsTurn, IsAt, IsResumed, IsUnder, left_in, left_under};
ghost use Rattle.tac_lang.specs.declared.level.Turn.TheVariants as variants;

use crate::part::{is_at_rest, with_run};
use deriv::Deriv;
use lang_rows::{Row, finish, finish_failed, finish_sat, first_failed, is_sat, rests};
use lang_runs::{Ran, RunStop};
use model_conv::Discarded;
use qgoal::Goal;
use qterm::Store;
use std::alloc::Global;

/// A part of a chain that ran on a goal, with the runs of the rest on the first of its goals. It has to be spent.
pub(crate) struct Level {
    /// A copy of the goal on which the part ran.
    pub goal: Goal,
    /// The limit there.
    pub limit: Option<u64>,
    /// How deep it stands.
    pub depth: u32,
    /// Where the rest begins among the parts.
    pub at: usize,
    /// The turns that are left of a repeat.
    pub turns: Option<u64>,
    /// The part's run, with those of the rest.
    pub row: Row,
}

/// What the run of a chain comes to: its answer, or a level of it. It has to be spent.
pub(crate) enum Turn {
    /// The answer.
    Ended(Result<Ran, RunStop>),
    /// A level, whose rest runs next.
    Down(Level),
}

impl Level {
    /// Spends all converters without a use of them.
    fn discard(self, why: Discarded) {
        let Level {
            goal: _,
            limit: _,
            depth: _,
            at: _,
            turns: _,
            row,
        } = self;
        row.discard(why);
    }
}

/// What a chain comes to on a goal with the answer of its first part there. The rest begins at this place, with so many turns left.
pub(crate) fn begun(
    alloc: Global,
    store: &Store,
    goal: Goal,
    limit: Option<u64>,
    depth: u32,
    at: usize,
    turns: Option<u64>,
    answer: Result<Ran, RunStop>,
) -> Turn
    requires goal { HasGoal store.now goal }
    requires goals { IfOk answer (λ first. All (HasGoal store.now) first.goals) }
    ensures turn { (c : Setting) (parts : List Strategy) (ps : Params) (chain : List Place) (v before : View) (s part : Strategy) → depth ≤ DEEPEST → at < length parts → IsShallow (goal_tree store.now goal) → Chains s part (rest_of (drop at parts) turns) (is_some turns) → IsAnswer c store.now ps chain v (task part (goal_tree store.now goal) limit (depth + 1) before) answer → IsTurn c store.now parts ps chain v (task s (goal_tree store.now goal) limit depth before) result }
{
    match answer {
        Ok(first) => {
            if is_at_rest(turns, store, &goal, first.goals.as_slice()) {
                return Turn::Ended(rests(alloc, goal, limit, first));
            }
            let row = Row::new(alloc, first, limit);
            Turn::Down(Level {
                goal,
                limit,
                depth,
                at,
                turns,
                row,
            })
        }
        Err(RunStop::Failed(first)) => Turn::Ended(first_failed(alloc, goal, limit, first)),
        Err(RunStop::Cancelled { seen }) => Turn::Ended(Err(RunStop::Cancelled { seen })),
        Err(RunStop::Memory) => Turn::Ended(Err(RunStop::Memory)),
    }
}

/// The answer of a chain whose rest ran on all goals of the level.
pub(crate) fn finished(alloc: Global, level: Level) -> Result<Ran, RunStop>
    ensures answer { (c : Setting) (ts : List Tree) (parts : List Strategy) (ps : Params) (chain : List Place) (v : View) (t : Task) → IsLevel c v.top ts parts ps t v level → IsWhole level.row → IsAnswer c ts ps chain v t result }
{
    let Level {
        goal,
        limit,
        depth: _,
        at: _,
        turns: _,
        row,
    } = level;
    finish(alloc, goal, limit, row)
}

/// What a level comes to with the answer of the rest on its next goal.
pub(crate) fn resumed(alloc: Global, level: Level, answer: Result<Ran, RunStop>) -> Turn
    ensures turn { (c : Setting) (ts : List Tree) (parts : List Strategy) (ps : Params) (chain : List Place) (v : View) (outer inner : Task) → IsWaiting c v.top ts parts ps level outer inner → IsAnswer c ts ps chain v inner answer → IsTurn c ts parts ps chain v outer result }
    ensures grows { IsResumed level result }
{
    match answer {
        Ok(ran) => with_success(alloc, level, ran),
        Err(RunStop::Failed(last)) => Turn::Ended(failed(alloc, level, last)),
        Err(RunStop::Cancelled { seen }) => {
            level.discard(Discarded::Cancelled);
            Turn::Ended(Err(RunStop::Cancelled { seen }))
        }
        Err(RunStop::Memory) => {
            level.discard(Discarded::Memory);
            Turn::Ended(Err(RunStop::Memory))
        }
    }
}

/// What a level comes to with a success of the rest on its next goal: the whole ends where that is sat.
fn with_success(alloc: Global, level: Level, ran: Ran) -> Turn
    ensures turn { (c : Setting) (ts : List Tree) (parts : List Strategy) (ps : Params) (chain : List Place) (v : View) (outer inner : Task) → IsWaiting c v.top ts parts ps level outer inner → IsAnswer c ts ps chain v inner (Ok ran) → IsTurn c ts parts ps chain v outer result }
    ensures grows { IsResumed level result }
{
    let Level {
        goal,
        limit,
        depth,
        at,
        turns,
        row,
    } = level;
    if is_sat(&ran) {
        return Turn::Ended(finish_sat(alloc, goal, limit, row, ran));
    }
    match with_run(row, ran) {
        Ok(row) => Turn::Down(Level {
            goal,
            limit,
            depth,
            at,
            turns,
            row,
        }),
        Err(_) => Turn::Ended(Err(RunStop::Memory)),
    }
}

/// The failure of a level by that of the rest on its next goal.
fn failed(alloc: Global, level: Level, last: Deriv) -> Result<Ran, RunStop>
    ensures answer { (c : Setting) (ts : List Tree) (parts : List Strategy) (ps : Params) (chain : List Place) (v : View) (outer inner : Task) → IsWaiting c v.top ts parts ps level outer inner → IsAnswer c ts ps chain v inner (Err (stops.Failed last)) → IsAnswer c ts ps chain v outer result }
{
    let Level {
        goal,
        limit,
        depth: _,
        at: _,
        turns: _,
        row,
    } = level;
    finish_failed(alloc, goal, limit, row, last)
}

/// What comes of a level by a turn of the rest on its next goal: it goes on with an answer, and waits under a level more.
pub(crate) fn stepped(alloc: Global, level: Level, levels: &mut Vec<Level>, turn: Turn) -> Turn
    ensures at { (c : Setting) (ts : List Tree) (parts : List Strategy) (ps : Params) (chain : List Place) (v : View) (whole outer inner : Task) → IsWaiting c v.top ts parts ps level outer inner → Waits c v.top ts parts ps whole (reverse levels.old.items) outer → IsTurn c ts parts ps chain v inner turn → IsAt c ts parts ps chain v whole (reverse levels.new.items) result }
    ensures less { (c : Setting) (ts : List Tree) (parts : List Strategy) (ps : Params) (chain : List Place) (v : View) (outer inner : Task) → IsWaiting c v.top ts parts ps level outer inner → IsTurn c ts parts ps chain v inner turn → left_in result + left_under (reverse levels.new.items) < left_in (variants.Down level) + left_under (reverse levels.old.items) }
{
    match turn {
        Turn::Down(inner) => waiting(level, levels, inner),
        Turn::Ended(answer) => resumed(alloc, level, answer),
    }
}

/// A level more over one that waits for it, or want of memory.
fn waiting(level: Level, levels: &mut Vec<Level>, inner: Level) -> Turn
    ensures { IsUnder level inner levels.old.items levels.new.items result }
{
    match levels.push(level) {
        Ok(()) => Turn::Down(inner),
        Err(failed) => {
            failed.value.discard(Discarded::Memory);
            inner.discard(Discarded::Memory);
            Turn::Ended(Err(RunStop::Memory))
        }
    }
}
