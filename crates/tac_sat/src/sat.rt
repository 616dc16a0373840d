//! The reducer that decides clauses.
ghost use Rattle.std.specs.Prelude.{◌≡◌, All};
ghost use Rattle.qterm.specs.declared.name.Sort.TheVariants as sort;
ghost use Rattle.qterm.specs.Store.{HasSort, Extends, trees_of};
ghost use Rattle.qgoal.specs.Goal.{goal_tree};
ghost use Rattle.tac_cert.specs.Accepts.{as_items};
ghost use Rattle.proof_conv.specs.Leaves.{StepsLeave};
ghost use Rattle.race_word.specs.Runner.{IsOf};
ghost use Rattle.race_word.specs.Keeps.{Keeps};
ghost use Rattle.deriv.specs.declared.kind.Kind.TheVariants as kinds;
ghost use Rattle.reducer_iface.specs.Listed.{most_clausal, IsListed};
ghost use Rattle.reducer_iface.specs.Allowed.{IsAllowed, Draws};

use crate::deciding::decide_clauses;
use qgoal::Goal;
use qterm::Store;
use race_word::{Racer, Races};
use reduce_base::{Listed, list_goal};
use reducer_iface::{Applied, Cause, Env, Kind, Reducer, Stop};
use sat_answers::number_names;
use sat_clauses::{ReadClauses, read_clauses};
use std::alloc::Global;

/// How many distinct subterms the canonical list may have.
const CLAUSAL: usize = 8_388_608;

/// Decides whether the canonical list of the goal has a model, and gives one goal: without formulas where it has one, and else with
/// `false` alone. It fails with `TooWide` where a subterm has no canonical form, with `TooLarge` where the list has more than 8,388,608
/// distinct subterms, with `NotClausal` where a formula of it is no clause, with `Spent` at one lemma more than the limit, and with
/// `PoolSpent` at the lemma whose ticket is past the pool.
#[derive(Drop)]
pub struct Sat;

impl Reducer for Sat {
    ghost kind_of = { λ _. kinds.Sat };

    fn kind(&self) -> Kind {
        Kind::Sat
    }

    fn apply(
        &self,
        alloc: Global,
        store: &mut Store,
        goal: &Goal,
        env: &Env,
        races: &Races,
        racer: &mut Racer,
    ) -> Result<Applied, Stop> {
        match list_goal(alloc, store, goal.formulas.as_slice(), CLAUSAL) {
            Ok(listed) => decide_list(alloc, store, goal, env, listed, races, racer),
            Err(fault) => Err(Stop::from(fault)),
        }
    }
}

/// Decides the canonical list of a goal, unless a formula of it is no clause.
fn decide_list(
    alloc: Global,
    store: &mut Store,
    goal: &Goal,
    env: &Env,
    listed: Listed,
    races: &Races,
    racer: &mut Racer,
) -> Result<Applied, Stop>
    requires racer { IsOf races.now racer.old }
    requires pool { env.now.pool ≡ races.now.terms.pool }
    requires listed { IsListed most_clausal (trees_of store.old goal.now.formulas) (trees_of store.old listed.formulas) }
    requires formulas { All (HasSort sort.Bool store.old) listed.formulas }
    requires leads { StepsLeave store.old (as_items (trees_of store.old goal.now.formulas)) listed.steps (as_items (trees_of store.old listed.formulas)) }
    ensures allowed { IsAllowed kinds.Sat store.new (goal_tree store.old goal.now) env.now racer.old.chain racer.new.view result }
    ensures draws { Draws kinds.Sat racer.old racer.new result }
    ensures store { Extends store.old store.new }
    ensures racer { Keeps racer.old racer.new }
{
    store.is_distinct();
    let Listed { formulas, steps } = listed;
    let list = formulas.as_slice();
    let numbers = number_names(alloc, store, list)?;
    let read = read_clauses(alloc, store, &numbers, list)?;
    match read {
        ReadClauses::Other(number) => Err(Stop::Fail {
            cause: Cause::NotClausal(number),
            lemmas: 0,
        }),
        ReadClauses::Clauses(clauses) => decide_clauses(
            alloc, store, goal, env, list, steps, &numbers, clauses, races, racer,
        ),
    }
}
