//! The reducer that shifts names so that their lower bounds become 0.
ghost use Rattle.std.specs.Prelude.{IfOk};
ghost use Rattle.model_conv.specs.Step.{AreLawful};
ghost use Rattle.deriv.specs.declared.kind.Kind.TheVariants as kinds;
ghost use Rattle.tac_normal.specs.Normal.{IsGiven};

use crate::normalizing::{Normal, normalize};
use model_conv::ModelConv;
use proof_conv::ProofConv;
use qgoal::{Goal, Precision};
use qlist_laws::keeps_models;
use qterm::{SUBTERMS, Store};
use race_word::{Racer, Races};
use reduce_base::list_goal;
use reducer_iface::{Applied, Env, Kind, Reducer, Stop};
use sqlite_items::Items;
use std::alloc::{AllocError, Global};

/// Puts for each Int name of the canonical list with a lower bound that isn't 0 a fresh name plus that bound, and gives the canonical list
/// of this. The steps of lifting give each name the value of its fresh name plus the bound, and then take the fresh names out. It fails
/// with `TooWide` where a subterm of the goal or of the list with its names shifted has no canonical form, and with `TooLarge` where the
/// goal's canonical list has more than 1,048,576 distinct subterms.
#[derive(Drop)]
pub struct NormalizeBounds;

impl Reducer for NormalizeBounds {
    ghost kind_of = { λ _. kinds.NormalizeBounds };

    fn kind(&self) -> Kind {
        Kind::NormalizeBounds
    }

    fn apply(
        &self,
        alloc: Global,
        store: &mut Store,
        goal: &Goal,
        _env: &Env,
        _races: &Races,
        _racer: &mut Racer,
    ) -> Result<Applied, Stop> {
        keeps_models();
        match list_goal(alloc, store, goal.formulas.as_slice(), SUBTERMS) {
            Ok(listed) => match normalize(alloc, store, goal.formulas.as_slice(), listed) {
                Ok(normal) => {
                    let applied = one_normal(alloc, goal.precision, normal)?;
                    Ok(applied)
                }
                Err(fault) => Err(Stop::from(fault)),
            },
            Err(fault) => Err(Stop::from(fault)),
        }
    }
}

/// The success with a list whose names are shifted as the one goal.
fn one_normal(alloc: Global, precision: Precision, normal: Normal) -> Result<Applied, AllocError>
    requires lawful { AreLawful normal.lifts }
    ensures { IfOk result (IsGiven precision normal) }
{
    let Normal {
        formulas,
        steps,
        lifts,
    } = normal;
    let mut goals = Items::new(alloc);
    goals.push(Goal {
        formulas,
        precision,
    })?;
    let mut lists = Items::new(alloc);
    lists.push(lifts)?;
    Ok(Applied {
        goals,
        models: ModelConv::of(lists),
        proofs: ProofConv::steps(steps),
        lemmas: 0,
    })
}
