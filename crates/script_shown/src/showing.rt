//! The texts of the commands that show something of the last answer.
//!
//! Each call answers the text, or the fault at the place of the command; contracts see answers over the trees of the store.
ghost use Rattle.std.specs.Prelude.{◌≡◌, map, All, IfOk, IfErr, IfSome, option_map};
ghost use Rattle.std.specs.Option.{option_copied};
ghost use Rattle.qterm.specs.Store.{Has};
ghost use Rattle.smt_words.specs.Command.{asked_tree};
ghost use Rattle.script_text.specs.Asked.{IsAskedIn};
ghost use Rattle.script_text.specs.Shown.{Text, model_shown, values_shown, proof_shown, reason_shown, info_shown};
ghost use Rattle.script_shown.specs.Trees.{answer_tree, HasAnswer};
ghost use Rattle.script_shown.specs.Stops as spec;

use crate::stop::{Stop, no_answer};
use crate::texts::{line, write_reason};
use answer_text::{ERROR_BEHAVIOR, NAME, UNSUPPORTED, VERSION, write_model};
use cert_text::write_cert;
use check_answer::Answer;
use qterm::{Name, Store};
use script_text::{AskError, write_asked};
use smt_words::{Asked, Info, ScriptError, What};
use std::alloc::Global;

/// The model after sat.
pub fn show_model(
    alloc: Global,
    store: &Store,
    names: &[Name],
    shown: Option<&Answer>,
    place: usize,
) -> Result<Vec<u8>, Stop>
    ensures text { IfOk result (λ text. model_shown names.now place (option_map (answer_tree store.now) (option_copied shown.entry)) ≡ Text text.items) }
    ensures stop { IfErr result (spec.IsTold (model_shown names.now place (option_map (answer_tree store.now) (option_copied shown.entry)))) }
{
    let Some(answer) = shown else {
        return Err(no_answer(place));
    };
    match answer {
        Answer::Sat(model) => {
            let text = write_model(alloc, names, model)?;
            Ok(text)
        }
        Answer::Unsat(_) => Err(no_answer(place)),
        Answer::Unknown(_) => Err(no_answer(place)),
        Answer::Subgoals(_) => Err(no_answer(place)),
        Answer::NoSubgoals(_) => Err(no_answer(place)),
    }
}

/// The values of the asked terms after sat.
pub fn show_values(
    alloc: Global,
    store: &Store,
    bytes: &[u8],
    asked: &[Asked],
    shown: Option<&Answer>,
    place: usize,
) -> Result<Vec<u8>, Stop>
    requires has { All (λ a. Has store.now a.term) asked.now }
    requires within { All (IsAskedIn bytes.now) asked.now }
    ensures text { IfOk result (λ text. values_shown bytes.now (map (asked_tree store.now) asked.now) place (option_map (answer_tree store.now) (option_copied shown.entry)) ≡ Text text.items) }
    ensures stop { IfErr result (spec.IsTold (values_shown bytes.now (map (asked_tree store.now) asked.now) place (option_map (answer_tree store.now) (option_copied shown.entry)))) }
{
    let Some(answer) = shown else {
        return Err(no_answer(place));
    };
    match answer {
        Answer::Sat(model) => match write_asked(alloc, store, bytes, model, asked) {
            Ok(text) => Ok(text),
            Err(AskError::Wide(place)) => Err(Stop::Fault(ScriptError {
                what: What::WideValue,
                place,
            })),
            Err(AskError::Memory) => Err(Stop::Memory),
        },
        Answer::Unsat(_) => Err(no_answer(place)),
        Answer::Unknown(_) => Err(no_answer(place)),
        Answer::Subgoals(_) => Err(no_answer(place)),
        Answer::NoSubgoals(_) => Err(no_answer(place)),
    }
}

/// The certificate after unsat.
pub fn show_proof(
    alloc: Global,
    store: &Store,
    shown: Option<&Answer>,
    place: usize,
) -> Result<Vec<u8>, Stop>
    requires has { IfSome shown (λ answer. HasAnswer store.now answer.now) }
    ensures text { IfOk result (λ text. proof_shown place (option_map (answer_tree store.now) (option_copied shown.entry)) ≡ Text text.items) }
    ensures stop { IfErr result (spec.IsTold (proof_shown place (option_map (answer_tree store.now) (option_copied shown.entry)))) }
{
    let Some(answer) = shown else {
        return Err(no_answer(place));
    };
    match answer {
        Answer::Unsat(cert) => {
            let text = write_cert(alloc, store, cert)?;
            Ok(text)
        }
        Answer::Sat(_) => Err(no_answer(place)),
        Answer::Unknown(_) => Err(no_answer(place)),
        Answer::Subgoals(_) => Err(no_answer(place)),
        Answer::NoSubgoals(_) => Err(no_answer(place)),
    }
}

/// The reason after unknown.
fn show_reason(
    alloc: Global,
    store: &Store,
    shown: Option<&Answer>,
    place: usize,
) -> Result<Vec<u8>, Stop>
    ensures text { IfOk result (λ text. reason_shown place (option_map (answer_tree store.now) (option_copied shown.entry)) ≡ Text text.items) }
    ensures stop { IfErr result (spec.IsTold (reason_shown place (option_map (answer_tree store.now) (option_copied shown.entry)))) }
{
    let Some(answer) = shown else {
        return Err(no_answer(place));
    };
    match answer {
        Answer::Unknown(why) => {
            let text = write_reason(alloc, why)?;
            Ok(text)
        }
        Answer::Sat(_) => Err(no_answer(place)),
        Answer::Unsat(_) => Err(no_answer(place)),
        Answer::Subgoals(_) => Err(no_answer(place)),
        Answer::NoSubgoals(_) => Err(no_answer(place)),
    }
}

/// What `get-info` tells.
pub fn show_info(
    alloc: Global,
    store: &Store,
    info: Info,
    shown: Option<&Answer>,
    place: usize,
) -> Result<Vec<u8>, Stop>
    ensures text { IfOk result (λ text. info_shown info place (option_map (answer_tree store.now) (option_copied shown.entry)) ≡ Text text.items) }
    ensures stop { IfErr result (spec.IsTold (info_shown info place (option_map (answer_tree store.now) (option_copied shown.entry)))) }
{
    match info {
        Info::Name => told(alloc, NAME),
        Info::Version => told(alloc, VERSION),
        Info::ErrorBehavior => told(alloc, ERROR_BEHAVIOR),
        Info::ReasonUnknown => show_reason(alloc, store, shown, place),
        Info::Other => told(alloc, UNSUPPORTED),
    }
}

/// A line as it stands.
fn told(alloc: Global, bytes: &[u8]) -> Result<Vec<u8>, Stop>
    ensures text { IfOk result (λ text. text.items ≡ bytes.now) }
    ensures memory { IfErr result (λ stop. stop ≡ Stop.Memory) }
{
    let text = line(alloc, bytes)?;
    Ok(text)
}
