//! The reducer that adds the bounds that are missing.
ghost use Rattle.std.specs.Prelude.{IfOk};
ghost use Rattle.deriv.specs.declared.kind.Kind.TheVariants as kinds;
ghost use Rattle.tac_bounds.specs.Given.{IsGiven, IsUnder};

use crate::bounding::{Bounded, bound_list};
use model_conv::ModelConv;
use proof_conv::ProofConv;
use qgoal::{Goal, Precision};
use qlist_laws::keeps_models;
use qterm::{SUBTERMS, Store, TermIds};
use race_word::{Racer, Races};
use reduce_base::{Fault, list_goal};
use reducer_iface::{Applied, Env, Kind, Reducer, Stop};
use sqlite_items::Items;
use std::alloc::{AllocError, Global};
use tac_basic::one_goal;

/// Gives each Int name of the canonical list the bounds that the parameters `add_bound_lower` and `add_bound_upper` tell, where the list
/// gives it none, and then the canonical list of all this. The step is under where any was added, and its certificates can't be closed
/// then. It fails with `TooWide` where a subterm of the goal or of the list with its bounds has no canonical form, and with `TooLarge`
/// where the goal's canonical list has more than 1,048,576 distinct subterms.
#[derive(Drop)]
pub struct AddBounds;

impl Reducer for AddBounds {
    ghost kind_of = { λ _. kinds.AddBounds };

    fn kind(&self) -> Kind {
        Kind::AddBounds
    }

    fn apply(
        &self,
        alloc: Global,
        store: &mut Store,
        goal: &Goal,
        env: &Env,
        _races: &Races,
        _racer: &mut Racer,
    ) -> Result<Applied, Stop> {
        keeps_models();
        match list_goal(alloc, store, goal.formulas.as_slice(), SUBTERMS) {
            Ok(listed) => match bound_list(alloc, store, listed, &env.params) {
                Ok(bounded) => {
                    let applied = one_bounded(alloc, goal.precision, bounded)?;
                    Ok(applied)
                }
                Err(cause) => Err(Stop::from(Fault::from(cause))),
            },
            Err(fault) => Err(Stop::from(fault)),
        }
    }
}

/// The success with a list and its bounds as the one goal.
fn one_bounded(alloc: Global, precision: Precision, bounded: Bounded) -> Result<Applied, AllocError>
    ensures { IfOk result (IsGiven precision bounded) }
{
    match bounded {
        Bounded::Same(listed) => {
            let goal = Goal {
                formulas: listed.formulas,
                precision,
            };
            let applied = one_goal(alloc, goal, listed.steps)?;
            Ok(applied)
        }
        Bounded::Added(formulas) => {
            let applied = one_under(alloc, precision, formulas)?;
            Ok(applied)
        }
    }
}

/// The success with these formulas as the one goal of a step that is under.
fn one_under(alloc: Global, precision: Precision, formulas: TermIds) -> Result<Applied, AllocError>
    ensures { IfOk result (IsUnder precision formulas) }
{
    let mut goals = Items::new(alloc);
    goals.push(Goal {
        formulas,
        precision: precision.join(Precision::Under),
    })?;
    let models = ModelConv::id(alloc)?;
    Ok(Applied {
        goals,
        models,
        proofs: ProofConv::none(1),
        lemmas: 0,
    })
}
