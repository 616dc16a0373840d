//! A success with one goal.
ghost use Rattle.std.specs.Prelude.{IfOk};
ghost use Rattle.model_conv.specs.Step.{AreLawful};
ghost use Rattle.sat_answers.specs.Answers.{IsOne};

use model_conv::{LiftStep, ModelConv};
use proof_conv::ProofConv;
use qgoal::Goal;
use reducer_iface::Applied;
use sqlite_items::Items;
use std::alloc::{AllocError, Global};
use tac_cert::Step;

/// The success with this one goal, from which the lifting steps lead back and to which the steps of a certificate lead, after so many
/// lemmas.
pub(crate) fn one_answer(
    alloc: Global,
    goal: Goal,
    lifts: Items<LiftStep>,
    steps: Items<Step>,
    lemmas: u64,
) -> Result<Applied, AllocError>
    requires lawful { AreLawful lifts }
    ensures { IfOk result (IsOne goal lifts steps lemmas) }
{
    let mut goals = Items::new(alloc);
    goals.push(goal)?;
    let mut lists = Items::new(alloc);
    lists.push(lifts)?;
    Ok(Applied {
        goals,
        models: ModelConv::of(lists),
        proofs: ProofConv::steps(steps),
        lemmas,
    })
}
