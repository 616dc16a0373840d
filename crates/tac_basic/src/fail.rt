//! The reducer that always fails.
ghost use Rattle.deriv.specs.declared.kind.Kind.TheVariants as kinds;

use qgoal::Goal;
use qterm::Store;
use race_word::{Racer, Races};
use reducer_iface::{Applied, Cause, Env, Kind, Reducer, Stop};
use std::alloc::Global;

/// Fails, since it is told to.
#[derive(Drop)]
pub struct FailReducer;

impl Reducer for FailReducer {
    ghost kind_of = { λ _. kinds.Fail };

    fn kind(&self) -> Kind {
        Kind::Fail
    }

    fn apply(
        &self,
        _alloc: Global,
        _store: &mut Store,
        _goal: &Goal,
        _env: &Env,
        _races: &Races,
        _racer: &mut Racer,
    ) -> Result<Applied, Stop> {
        Err(Stop::Fail {
            cause: Cause::Told,
            lemmas: 0,
        })
    }
}
