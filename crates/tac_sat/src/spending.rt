//! The failures where the lemmas are spent.
ghost use Rattle.std.specs.Prelude.{◌≡◌, ◌≤◌, ◌<◌, ◌+◌, List, MatchOption, length};
ghost use Rattle.qterm.specs.Store.{Extends, trees_of};
ghost use Rattle.qgoal.specs.Goal.{goal_tree};
ghost use Rattle.race_word.specs.declared.place.Place.{Place};
ghost use Rattle.race_word.specs.declared.view.View.{View};
ghost use Rattle.race_word.specs.Runner.{Runner};
ghost use Rattle.deriv.specs.declared.kind.Kind.TheVariants as kinds;
ghost use Rattle.reducer_iface.specs.Listed.{most_clausal, IsListed};
ghost use Rattle.reducer_iface.specs.Allowed.{IsAllowed, Draws};
ghost use Rattle.sat_watch.specs.Ticks.{HasPassed, HasHalted};
ghost use Rattle.sat_watch.specs.declared.halt.Halt.TheVariants.{Pool};
ghost use Rattle.sat_answers.specs.Coded.{AreLearnt};

use qgoal::Goal;
use qterm::{Store, TermId};
use race_word::PoolEnd;
use reducer_iface::{Applied, Cause, Env, Stop};
use sat_answers::told;
use sat_clauses::Numbers;
use sat_core::RupLine;
use sat_rows::read_lists_are_clauses;
use std::alloc::Global;

/// The failure at one lemma more than the limit.
pub(crate) fn spent(
    alloc: Global,
    store: &mut Store,
    goal: &Goal,
    env: &Env,
    list: &[TermId],
    numbers: &Numbers,
    lines: &[RupLine],
    lemmas: u64,
) -> Result<Applied, Stop>
    requires listed { IsListed most_clausal (trees_of store.old goal.now.formulas) (trees_of store.old list.now) }
    requires learnt { AreLearnt store.old numbers.now (trees_of store.old list.now) lines.now }
    requires count { lemmas ≡ length lines.now }
    requires past { MatchOption env.now.limit ⊥ (λ most. lemmas ≡ most + 1) }
    ensures allowed { (chain : List Place) (view : View) → IsAllowed kinds.Sat store.new (goal_tree store.old goal.now) env.now chain view result }
    ensures draws { (old new : Runner) → HasPassed lemmas old new → Draws kinds.Sat old new result }
    ensures store { Extends store.old store.new }
{
    read_lists_are_clauses();
    let terms = told(alloc, store, numbers, list, lines)?;
    let cause = Cause::Spent(terms);
    Err(Stop::Fail { cause, lemmas })
}

/// The failure at the lemma whose ticket is past the pool.
pub(crate) fn pool_spent(
    alloc: Global,
    store: &mut Store,
    goal: &Goal,
    env: &Env,
    list: &[TermId],
    numbers: &Numbers,
    lines: &[RupLine],
    lemmas: u64,
    end: PoolEnd,
) -> Result<Applied, Stop>
    requires listed { IsListed most_clausal (trees_of store.old goal.now.formulas) (trees_of store.old list.now) }
    requires learnt { AreLearnt store.old numbers.now (trees_of store.old list.now) lines.now }
    requires count { lemmas ≡ length lines.now }
    requires some { 1 ≤ lemmas }
    requires in_limit { MatchOption env.now.limit (Unit {0}) (λ most. lemmas ≤ most + 1) }
    requires past { env.now.pool ≤ end.ticket }
    ensures allowed { (chain : List Place) (view : View) → end.ticket < view.top → IsAllowed kinds.Sat store.new (goal_tree store.old goal.now) env.now chain view result }
    ensures draws { (old new : Runner) → HasHalted lemmas old new (Pool end) → Draws kinds.Sat old new result }
    ensures store { Extends store.old store.new }
{
    read_lists_are_clauses();
    let terms = told(alloc, store, numbers, list, lines)?;
    Err(Stop::Fail {
        cause: Cause::PoolSpent {
            ticket: end.ticket,
            lemmas: terms,
        },
        lemmas,
    })
}
