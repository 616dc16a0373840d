//! The trait of reducers.
ghost use Rattle.std.specs.Prelude.{◌≡◌};
ghost use Rattle.qterm.specs.Store.{Extends};
ghost use Rattle.qgoal.specs.Goal.{HasGoal, goal_tree};
ghost use Rattle.race_word.specs.Runner.{IsOf};
ghost use Rattle.race_word.specs.Keeps.{Keeps};
ghost use Rattle.deriv.specs.Params.{AreInRange};
ghost use Rattle.deriv.specs.declared.kind.Kind.{Kind};
ghost use Rattle.reducer_iface.specs.Depths.{IsShallow};

use crate::applied::{Applied, Stop};
use crate::env::Env;
use deriv::Kind;
use qgoal::Goal;
use qterm::Store;
use race_word::{Racer, Races};
use std::alloc::Global;

/// The unit of a strategy: it turns a goal into subgoals.
pub trait Reducer: Drop {
    ghost use Rattle.reducer_iface.specs.Allowed.{IsAllowed, Draws};

    /// The kind of the reducer.
    ghost kind_of: { Self → Kind };

    /// Its kind.
    fn kind(&self) -> Kind
        ensures { result ≡ kind_of self.now };

    /// Turns the goal into subgoals, or tells why not.
    ///
    /// The answer is one that the kind's row allows, for every total of drawn lemmas that is at least the racer's top afterwards. It is
    /// Cancelled only where a poll of the racer gave that winner, of a place on its chain with another branch. Terms that were in the
    /// store stay, and the racer's chain, workers, branches and wins are as they were. The goal is within the limits on the depth of its
    /// formulas, and so are the subgoals.
    fn apply(
        &self,
        alloc: Global,
        store: &mut Store,
        goal: &Goal,
        env: &Env,
        races: &Races,
        racer: &mut Racer,
    ) -> Result<Applied, Stop>
        requires racer { IsOf races.now racer.old }
        requires goal { HasGoal store.old goal.now }
        requires shallow { IsShallow (goal_tree store.old goal.now) }
        requires params { AreInRange env.now.params }
        requires pool { env.now.pool ≡ races.now.terms.pool }
        ensures allowed { IsAllowed (kind_of self.now) store.new (goal_tree store.old goal.now) env.now racer.old.chain racer.new.view result }
        ensures draws { Draws (kind_of self.now) racer.old racer.new result }
        ensures store { Extends store.old store.new }
        ensures racer { Keeps racer.old racer.new };
}

/// A reducer in a box, which threads may share.
pub type BoxedReducer = Box<dyn Reducer + Send + Sync>;
