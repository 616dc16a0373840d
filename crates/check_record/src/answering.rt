//! What a run came to is answered.
ghost use Rattle.std.specs.Prelude.{◌≡◌, All, IfOk};
ghost use Rattle.qterm.specs.declared.name.Sort.TheVariants.{Bool};
ghost use Rattle.qterm.specs.Store.{HasSort, trees_of};
ghost use Rattle.cert_items.specs.Truth.{Unsatisfiable};
ghost use Rattle.tac_cert.specs.Accepts.{CertFits};
ghost use Rattle.deriv.specs.declared.cause.Cause.{Cause};
ghost use Rattle.deriv.specs.declared.outcome.Outcome.TheVariants as outcome;
ghost use Rattle.check_answer.specs.Answers.{IfUnsat};
ghost use Rattle.check_answer.specs.Reached.{IsReached};
ghost use Rattle.check_record.specs.Ends.{IsEnd, IsTold, IsHandedOn, reached_of};

use crate::kept::Told;
use check_answer::{Answer, Reached, Why, decide};
use deriv::{Cause, Deriv, Outcome};
use lang_runs::{Ran, RunStop, discard};
use model_conv::Discarded;
use qterm::{Store, TermId};
use std::alloc::{AllocError, Global};

/// The derivation of the run, and what the check of that number of the assertions answers by it.
pub(crate) fn answered(
    alloc: Global,
    store: &Store,
    number: u32,
    asserts: &[TermId],
    ran: Result<Ran, RunStop>,
) -> Result<Told, AllocError>
    requires asserts { All (HasSort Bool store.now) asserts.now }
    requires ended { IsEnd ran }
    requires reached { IfOk ran (λ r. IsReached store.now (trees_of store.now asserts.now) (reached_of r)) }
    ensures told { IfOk result (IsTold store.now number (trees_of store.now asserts.now) ran) }
    ensures unsat { IfOk result (λ t. IfUnsat (λ _. Unsatisfiable (trees_of store.now asserts.now)) t.answer) }
    ensures terms { IfOk result (λ t. IfUnsat (CertFits store.now) t.answer) }
{
    match ran {
        Ok(ran) => {
            let Ran {
                goals,
                above,
                models,
                proofs,
                deriv,
            } = ran;
            let reached = Reached {
                goals,
                above,
                models,
                proofs,
            };
            let answer = decide(alloc, store, number, asserts, reached)?;
            Ok(Told { deriv, answer })
        }
        Err(RunStop::Failed(deriv)) => {
            let why = Why::Failed(cause_of(&deriv)?);
            Ok(Told {
                deriv,
                answer: Answer::Unknown(why),
            })
        }
        Err(RunStop::Cancelled { .. }) => unreachable!(),
        Err(RunStop::Memory) => Err(AllocError),
    }
}

/// The derivation of the run, and its goals or its cause.
pub(crate) fn handed_on(ran: Result<Ran, RunStop>) -> Result<Told, AllocError>
    requires ended { IsEnd ran }
    ensures told { IfOk result (IsHandedOn ran) }
{
    match ran {
        Ok(ran) => {
            let Ran {
                goals,
                above: _,
                models,
                proofs,
                deriv,
            } = ran;
            discard(models, proofs, Discarded::Undecided);
            Ok(Told {
                deriv,
                answer: Answer::Subgoals(goals),
            })
        }
        Err(RunStop::Failed(deriv)) => {
            let why = Why::Failed(cause_of(&deriv)?);
            Ok(Told {
                deriv,
                answer: Answer::NoSubgoals(why),
            })
        }
        Err(RunStop::Cancelled { .. }) => unreachable!(),
        Err(RunStop::Memory) => Err(AllocError),
    }
}

/// A copy of the cause by which a derivation failed.
fn cause_of(deriv: &Deriv) -> Result<Cause, AllocError>
    requires failed { (cause : Cause) × (deriv.now.out ≡ outcome.Failed cause) }
    ensures { IfOk result (λ cause. deriv.now.out ≡ outcome.Failed cause) }
{
    match &deriv.out {
        Outcome::Failed(cause) => {
            let cause = cause.clone()?;
            Ok(cause)
        }
        Outcome::Done(_) => unreachable!(),
    }
}
