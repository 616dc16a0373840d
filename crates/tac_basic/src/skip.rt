//! The reducer that does nothing.
ghost use Rattle.deriv.specs.declared.kind.Kind.TheVariants as kinds;

use crate::success::one_goal;
use qgoal::Goal;
use qterm::Store;
use race_word::{Racer, Races};
use reducer_iface::{Applied, Env, Kind, Reducer, Stop};
use sqlite_items::Items;
use std::alloc::Global;

/// Gives the goal as it stands.
#[derive(Drop)]
pub struct Skip;

impl Reducer for Skip {
    ghost kind_of = { λ _. kinds.Skip };

    fn kind(&self) -> Kind {
        Kind::Skip
    }

    fn apply(
        &self,
        alloc: Global,
        _store: &mut Store,
        goal: &Goal,
        _env: &Env,
        _races: &Races,
        _racer: &mut Racer,
    ) -> Result<Applied, Stop> {
        let same = goal.clone()?;
        let applied = one_goal(alloc, same, Items::new(alloc))?;
        Ok(applied)
    }
}
