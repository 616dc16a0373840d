//! A success with one goal.
ghost use Rattle.std.specs.Prelude.{◌≡◌, ◌∷◌, [], List, IfOk};
ghost use Rattle.qterm.specs.Tree.{Tree};
ghost use Rattle.tac_cert.specs.Accepts.{as_items};
ghost use Rattle.proof_conv.specs.Conv.{IsOpen};
ghost use Rattle.proof_conv.specs.Leaves.{StepsLeave};
ghost use Rattle.proof_conv.specs.Leads.{Leads, NestAtMost};

use model_conv::ModelConv;
use proof_conv::ProofConv;
use qgoal::Goal;
use reducer_iface::Applied;
use sqlite_items::Items;
use std::alloc::{AllocError, Global};
use tac_cert::Step;

/// The success with this one goal, to which the steps of a certificate lead, without a step of lifting and without a lemma.
pub fn one_goal(alloc: Global, goal: Goal, steps: Items<Step>) -> Result<Applied, AllocError>
    ensures goals { IfOk result (λ a. a.goals ≡ goal ∷ []) }
    ensures models { IfOk result (λ a. a.models ≡ [] ∷ []) }
    ensures proofs { IfOk result (λ a. IsOpen steps a.proofs) }
    ensures leads { IfOk result (λ a. (ts : List Tree) (formulas subgoal : List Tree) → StepsLeave ts (as_items formulas) steps (as_items subgoal) → Leads ts a.proofs.0 formulas (subgoal ∷ [])) }
    ensures nests { IfOk result (λ a. NestAtMost a.proofs.0 (0 ∷ [])) }
    ensures lemmas { IfOk result (λ a. a.lemmas ≡ 0) }
{
    let mut goals = Items::new(alloc);
    goals.push(goal)?;
    let models = ModelConv::id(alloc)?;
    Ok(Applied {
        goals,
        models,
        proofs: ProofConv::steps(steps),
        lemmas: 0,
    })
}
