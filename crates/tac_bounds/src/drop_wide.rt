//! The reducer that drops the formulas of many names.
ghost use Rattle.std.specs.Prelude.{IfOk};
ghost use Rattle.bound_lists.specs.DropWide.{narrowing};
ghost use Rattle.qgoal.specs.Precision.{join};
ghost use Rattle.deriv.specs.declared.kind.Kind.TheVariants as kinds;
ghost use Rattle.tac_bounds.specs.One.{IsOne};

use crate::narrowing::{Narrowed, narrow_list, step_of};
use qgoal::{Goal, Precision};
use qlist_laws::keeps_models;
use qterm::{SUBTERMS, Store};
use race_word::{Racer, Races};
use reduce_base::list_goal;
use reducer_iface::{Applied, Env, Kind, Reducer, Stop};
use std::alloc::{AllocError, Global};
use tac_basic::one_goal;

/// Gives the formulas of the canonical list that have at most as many distinct names as the parameter `drop_wide_max` tells. The step is
/// over where any was dropped. It fails with `TooWide` where a subterm has no canonical form, and with `TooLarge` where the list has more
/// than 1,048,576 distinct subterms.
#[derive(Drop)]
pub struct DropWide;

impl Reducer for DropWide {
    ghost kind_of = { λ _. kinds.DropWide };

    fn kind(&self) -> Kind {
        Kind::DropWide
    }

    fn apply(
        &self,
        alloc: Global,
        store: &mut Store,
        goal: &Goal,
        env: &Env,
        _races: &Races,
        _racer: &mut Racer,
    ) -> Result<Applied, Stop> {
        keeps_models();
        match list_goal(alloc, store, goal.formulas.as_slice(), SUBTERMS) {
            Ok(listed) => {
                let narrowed = narrow_list(alloc, store, listed, env.params.drop_wide_max)?;
                let applied = one_narrowed(alloc, goal.precision, narrowed)?;
                Ok(applied)
            }
            Err(fault) => Err(Stop::from(fault)),
        }
    }
}

/// The success with the narrow formulas of a canonical list as the one goal.
fn one_narrowed(
    alloc: Global,
    precision: Precision,
    narrowed: Narrowed,
) -> Result<Applied, AllocError>
    ensures { IfOk result (IsOne (join precision (narrowing narrowed.dropped)) narrowed.formulas narrowed.steps) }
{
    let Narrowed {
        formulas,
        steps,
        dropped,
    } = narrowed;
    let goal = Goal {
        formulas,
        precision: precision.join(step_of(dropped)),
    };
    let applied = one_goal(alloc, goal, steps)?;
    Ok(applied)
}
