//! What strategies stand on: reducers by name, and probes.
ghost use Rattle.std.specs.Prelude.{◌≡◌, IsSome, IfSome, IfOk};
ghost use Rattle.qterm.specs.Store.{Extends};
ghost use Rattle.qgoal.specs.Goal.{HasGoal, goal_tree};
ghost use Rattle.race_word.specs.Keeps.{Keeps};
ghost use Rattle.race_word.specs.Runner.{IsOf};
ghost use Rattle.deriv.specs.Params.{AreInRange};
ghost use Rattle.reducer_iface.specs.Depths.{IsShallow};
ghost use Rattle.probe_set.specs.Probe.{probe_of};

use deriv::Kind;
use probe_set::probe;
use qgoal::Goal;
use qterm::Store;
use race_word::{Racer, Races};
use reducer_iface::{Applied, Env, Reducers, Stop};
use std::alloc::{AllocError, Global};
use strat_text::{ProbeExpr, ReducerName};

/// Reducers by their names, and the values of probes.
pub trait Table {
    ghost use Rattle.std.specs.Prelude.{ℤ};
    ghost use Rattle.qgoal.specs.Goal.{GoalTree};
    ghost use Rattle.strat_text.specs.declared.probe.ProbeExpr.{ProbeExpr};
    ghost use Rattle.reducer_iface.specs.Names.{Names, kind_at};
    ghost use Rattle.reducer_iface.specs.Allowed.{IsAllowed, Draws};

    /// The names, in order, with the kinds of their reducers.
    ghost kinds: { Self → Names };

    /// The value of a probe on a goal.
    ghost value_of: { GoalTree → ProbeExpr → ℤ };

    /// The kind of the reducer of a name, None exactly where the name isn't there.
    fn kind(&self, name: &ReducerName) -> Option<Kind>
        ensures { result ≡ kind_at (kinds self.now) name.now };

    /// Runs the reducer of a name that is there, as its `apply` says.
    fn apply(
        &self,
        alloc: Global,
        name: &ReducerName,
        store: &mut Store,
        goal: &Goal,
        env: &Env,
        races: &Races,
        racer: &mut Racer,
    ) -> Result<Applied, Stop>
        requires known { IsSome (kind_at (kinds self.now) name.now) }
        requires racer { IsOf races.now racer.old }
        requires goal { HasGoal store.old goal.now }
        requires shallow { IsShallow (goal_tree store.old goal.now) }
        requires params { AreInRange env.now.params }
        requires pool { env.now.pool ≡ races.now.terms.pool }
        ensures allowed { IfSome (kind_at (kinds self.now) name.now) (λ kind. IsAllowed kind store.new (goal_tree store.old goal.now) env.now racer.old.chain racer.new.view result) }
        ensures draws { IfSome (kind_at (kinds self.now) name.now) (λ kind. Draws kind racer.old racer.new result) }
        ensures store { Extends store.old store.new }
        ensures racer { Keeps racer.old racer.new };

    /// The value of a probe on a goal, which is taken as it stands.
    fn probe(
        &self,
        alloc: Global,
        store: &mut Store,
        goal: &Goal,
        expr: &ProbeExpr,
    ) -> Result<i128, AllocError>
        requires goal { HasGoal store.old goal.now }
        ensures value { IfOk result (λ z. z ≡ value_of (goal_tree store.old goal.now) expr.now) }
        ensures store { Extends store.old store.new };
}

impl<R: Reducers> Table for R {
    ghost kinds = { R.kinds };

    ghost value_of = { probe_of };

    fn kind(&self, name: &ReducerName) -> Option<Kind> {
        Reducers::kind(self, name)
    }

    fn apply(
        &self,
        alloc: Global,
        name: &ReducerName,
        store: &mut Store,
        goal: &Goal,
        env: &Env,
        races: &Races,
        racer: &mut Racer,
    ) -> Result<Applied, Stop> {
        Reducers::apply(self, alloc, name, store, goal, env, races, racer)
    }

    fn probe(
        &self,
        alloc: Global,
        store: &mut Store,
        goal: &Goal,
        expr: &ProbeExpr,
    ) -> Result<i128, AllocError> {
        let value = probe(alloc, store, goal, expr)?;
        Ok(value)
    }
}
