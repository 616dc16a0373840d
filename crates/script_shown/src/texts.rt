//! The texts of answers.
ghost use Rattle.std.specs.Prelude.{◌≡◌, IfOk};
ghost use Rattle.script_text.specs.Answers.{answer_text, failure_line, reason_line};
ghost use Rattle.script_shown.specs.Trees.{answer_tree, reason_of, cause_of, HasAnswer};

use answer_text::{
    FAILED_MEMOUT, INCOMPLETE, MEMOUT, SAT, UNKNOWN, UNSAT, write_failed, write_failed_reason,
    write_goals, write_wide_reason,
};
use check_answer::{Answer, Why};
use qterm::Store;
use std::alloc::{AllocError, Global};

/// What a check or an `apply` with this answer writes.
#[tactic(auto, unfolding(script_text::specs::Answers::answer_text))]
pub fn write_answer(alloc: Global, store: &Store, answer: &Answer) -> Result<Vec<u8>, AllocError>
    requires { HasAnswer store.now answer.now }
    ensures { IfOk result (λ text. text.items ≡ answer_text (answer_tree store.now answer.now)) }
{
    match answer {
        Answer::Sat(_) => line(alloc, SAT),
        Answer::Unsat(_) => line(alloc, UNSAT),
        Answer::Unknown(_) => line(alloc, UNKNOWN),
        Answer::Subgoals(goals) => write_goals(alloc, store, goals.as_slice()),
        Answer::NoSubgoals(why) => write_failure(alloc, why),
    }
}

/// The line of an `apply` that came to no goals.
fn write_failure(alloc: Global, why: &Why) -> Result<Vec<u8>, AllocError>
    ensures { IfOk result (λ text. text.items ≡ failure_line (cause_of why.now)) }
{
    match why {
        Why::Failed(cause) => write_failed(alloc, cause),
        Why::Undecided(_) | Why::LiftWide(_) | Why::Memory => line(alloc, FAILED_MEMOUT),
    }
}

/// The line of the reason of an unknown answer.
#[tactic(auto, unfolding(script_text::specs::Answers::reason_line))]
pub(crate) fn write_reason(alloc: Global, why: &Why) -> Result<Vec<u8>, AllocError>
    ensures { IfOk result (λ text. text.items ≡ reason_line (reason_of why.now)) }
{
    match why {
        Why::Failed(cause) => write_failed_reason(alloc, cause),
        Why::Undecided(_) => line(alloc, INCOMPLETE),
        Why::LiftWide(name) => write_wide_reason(alloc, name),
        Why::Memory => line(alloc, MEMOUT),
    }
}

/// A line as it stands.
pub fn line(alloc: Global, bytes: &[u8]) -> Result<Vec<u8>, AllocError>
    ensures { IfOk result (λ text. text.items ≡ bytes.now) }
{
    let mut text = Vec::new(alloc);
    text.extend_from_slice(bytes)?;
    Ok(text)
}
