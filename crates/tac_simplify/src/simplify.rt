//! The reducer that gives the canonical list.
ghost use Rattle.std.specs.Prelude.{IfOk};
ghost use Rattle.tac_simplify.specs.One.{IsOne};
ghost use Rattle.deriv.specs.declared.kind.Kind.TheVariants as kinds;

use qgoal::{Goal, Precision};
use qlist_laws::keeps_models;
use qterm::{SUBTERMS, Store};
use race_word::{Racer, Races};
use reduce_base::{Listed, list_goal};
use reducer_iface::{Applied, Env, Kind, Reducer, Stop};
use std::alloc::{AllocError, Global};
use tac_basic::one_goal;

/// Gives exactly the canonical list of the goal. It fails with `TooWide` where a subterm has no canonical form, and with `TooLarge`
/// where the list has more than 1,048,576 distinct subterms.
#[derive(Drop)]
pub struct Simplify;

impl Reducer for Simplify {
    ghost kind_of = { λ _. kinds.Simplify };

    fn kind(&self) -> Kind {
        Kind::Simplify
    }

    fn apply(
        &self,
        alloc: Global,
        store: &mut Store,
        goal: &Goal,
        _env: &Env,
        _races: &Races,
        _racer: &mut Racer,
    ) -> Result<Applied, Stop> {
        keeps_models();
        match list_goal(alloc, store, goal.formulas.as_slice(), SUBTERMS) {
            Ok(listed) => {
                let applied = one_list(alloc, goal.precision, listed)?;
                Ok(applied)
            }
            Err(fault) => Err(Stop::from(fault)),
        }
    }
}

/// The success with a canonical list as the one goal.
fn one_list(alloc: Global, precision: Precision, listed: Listed) -> Result<Applied, AllocError>
    ensures { IfOk result (IsOne precision listed) }
{
    let Listed { formulas, steps } = listed;
    let goal = Goal {
        formulas,
        precision,
    };
    let applied = one_goal(alloc, goal, steps)?;
    Ok(applied)
}
