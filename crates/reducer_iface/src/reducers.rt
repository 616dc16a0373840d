//! Reducers by their names, as those see them who run one.
ghost use Rattle.std.specs.Prelude.{◌≡◌, IsSome, IfSome};
ghost use Rattle.qterm.specs.Store.{Extends};
ghost use Rattle.qgoal.specs.Goal.{HasGoal, goal_tree};
ghost use Rattle.race_word.specs.Keeps.{Keeps};
ghost use Rattle.race_word.specs.Runner.{IsOf};
ghost use Rattle.deriv.specs.Params.{AreInRange};
ghost use Rattle.reducer_iface.specs.Depths.{IsShallow};
ghost use Rattle.reducer_iface.specs.Names.{names};

use crate::applied::{Applied, Stop};
use crate::env::Env;
use crate::reducer::Reducer;
use crate::registry::Registry;
use deriv::Kind;
use qgoal::Goal;
use qterm::Store;
use race_word::{Racer, Races};
use std::alloc::Global;
use strat_text::ReducerName;

/// What has reducers by their names.
pub trait Reducers {
    ghost use Rattle.reducer_iface.specs.Names.{Names, kind_at};
    ghost use Rattle.reducer_iface.specs.Allowed.{IsAllowed, Draws};

    /// The names, in order, with the kinds of their reducers.
    ghost kinds: { Self → Names };

    /// The kind of the reducer of a name, None exactly where the name isn't there.
    fn kind(&self, name: &ReducerName) -> Option<Kind>
        ensures { result ≡ kind_at (kinds self.now) name.now };

    /// Runs the reducer of a name that is there, as its `apply` says.
    fn apply(
        &self,
        alloc: Global,
        name: &ReducerName,
        store: &mut Store,
        goal: &Goal,
        env: &Env,
        races: &Races,
        racer: &mut Racer,
    ) -> Result<Applied, Stop>
        requires known { IsSome (kind_at (kinds self.now) name.now) }
        requires racer { IsOf races.now racer.old }
        requires goal { HasGoal store.old goal.now }
        requires shallow { IsShallow (goal_tree store.old goal.now) }
        requires params { AreInRange env.now.params }
        requires pool { env.now.pool ≡ races.now.terms.pool }
        ensures allowed { IfSome (kind_at (kinds self.now) name.now) (λ kind. IsAllowed kind store.new (goal_tree store.old goal.now) env.now racer.old.chain racer.new.view result) }
        ensures draws { IfSome (kind_at (kinds self.now) name.now) (λ kind. Draws kind racer.old racer.new result) }
        ensures store { Extends store.old store.new }
        ensures racer { Keeps racer.old racer.new };
}

impl Reducers for Registry {
    ghost kinds = { λ r. names (λ e. (Reducer-box e.reducer).kind_of e.reducer.value) r };

    fn kind(&self, name: &ReducerName) -> Option<Kind> {
        match self.get(name) {
            Some(reducer) => Some(reducer.kind()),
            None => None,
        }
    }

    fn apply(
        &self,
        alloc: Global,
        name: &ReducerName,
        store: &mut Store,
        goal: &Goal,
        env: &Env,
        races: &Races,
        racer: &mut Racer,
    ) -> Result<Applied, Stop> {
        match self.get(name) {
            Some(reducer) => reducer.apply(alloc, store, goal, env, races, racer),
            None => unreachable!(),
        }
    }
}
