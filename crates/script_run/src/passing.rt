//! The commands that make no record: what each makes of the session, and its text.
ghost use Rattle.std.specs.Prelude.{◌≡◌, Bool, All, IfOk, IfErr, IfSome, None, option_map, if◌then◌else◌};
ghost use Rattle.std.specs.Option.{option_copied};
ghost use Rattle.strat_text.specs.declared.strategy.Strategy.{Strategy as Strategies};
ghost use Rattle.smt_words.specs.Command.{placed_tree};
ghost use Rattle.script_text.specs.Session.{session_tree};
ghost use Rattle.script_text.specs.Shown as shown;
ghost use Rattle.script_text.specs.Output.{deed_of, Writes};
ghost use Rattle.script_run.specs.Records.{HasRecord, last_answer, record_trees};
ghost use Rattle.script_run.specs.Steps as spec;
ghost use Rattle.script_shown.specs.Stops as stops;
ghost use Rattle.script_shown.specs.Trees.{answer_tree, HasAnswer};

use check_record::{Answer, CheckRecord};
use qterm::Store;
use script_shown::{Stop, line, show_info, show_model, show_proof, show_values, unknown_reducer};
use script_text::{
    Session, assert_formula, declare, option_text, pop_levels, push_levels, reset, success_text,
    write_echo,
};
use smt_words::{Command, Placed};
use std::alloc::Global;

/// Does a command that makes no record, and answers its text.
#[tactic(auto, unfolding(script_text::specs::Output::deed))]
pub(crate) fn pass(
    alloc: Global,
    store: &Store,
    bytes: &[u8],
    session: &mut Session,
    journal: &[CheckRecord],
    placed: &Placed,
) -> Result<Vec<u8>, Stop>
    requires has { All (HasRecord store.now) journal.now }
    requires within { spec.IsCommandIn store.now bytes.now placed.now.command }
    requires plain { spec.IsPlain placed.now.command }
    ensures text { (can_run : Strategies → Bool) → IfOk result (λ text. deed_of (record { can_run = can_run; bytes = bytes.now }) (session_tree store.now (last_answer (record_trees store.now journal.now)) session.old) (placed_tree store.now placed.now) ≡ Writes text.items (session_tree store.now (last_answer (record_trees store.now journal.now)) session.new)) }
    ensures stop { (can_run : Strategies → Bool) → IfErr result (stops.IsRefused (deed_of (record { can_run = can_run; bytes = bytes.now }) (session_tree store.now (last_answer (record_trees store.now journal.now)) session.old) (placed_tree store.now placed.now))) }
    ensures sound { spec.IsSound store.now session.old → IfOk result (λ _. spec.IsSound store.now session.new) }
{
    match &placed.command {
        Command::SetLogic | Command::SetInfo | Command::Exit => success(alloc, session),
        Command::PrintSuccess(on) => {
            session.print_success = *on;
            success(alloc, session)
        }
        Command::SetOption(known) => told(alloc, option_text(*known, session.print_success)),
        Command::Declare(name) => {
            declare(session, name)?;
            success(alloc, session)
        }
        Command::Define => {
            session.shows = false;
            success(alloc, session)
        }
        Command::Assert(id) => {
            assert_formula(session, *id)?;
            success(alloc, session)
        }
        Command::Push(levels) => {
            push_levels(session, *levels)?;
            success(alloc, session)
        }
        Command::Pop(levels) => {
            pop_levels(session, *levels);
            success(alloc, session)
        }
        Command::ResetAssertions => {
            reset(session);
            success(alloc, session)
        }
        Command::CheckSat => Err(unknown_reducer(placed.place)),
        Command::GetModel => show_model(
            alloc,
            store,
            session.names.as_slice(),
            shown_of(store, session, journal),
            placed.place,
        ),
        Command::GetValue(asked) => show_values(
            alloc,
            store,
            bytes,
            asked.as_slice(),
            shown_of(store, session, journal),
            placed.place,
        ),
        Command::GetProof => show_proof(
            alloc,
            store,
            shown_of(store, session, journal),
            placed.place,
        ),
        Command::GetInfo(info) => show_info(
            alloc,
            store,
            *info,
            shown_of(store, session, journal),
            placed.place,
        ),
        Command::Echo(text) => {
            let text = write_echo(alloc, text.bytes.as_slice())?;
            Ok(text)
        }
        Command::CheckSatUsing(_) | Command::Apply(_) => unreachable!(),
    }
}

/// What a command without other output writes.
fn success(alloc: Global, session: &Session) -> Result<Vec<u8>, Stop>
    ensures text { IfOk result (λ text. text.items ≡ shown.success_text session.now.print_success) }
    ensures memory { IfErr result (λ stop. stop ≡ Stop.Memory) }
{
    told(alloc, success_text(session.print_success))
}

/// A line as it stands.
fn told(alloc: Global, bytes: &[u8]) -> Result<Vec<u8>, Stop>
    ensures text { IfOk result (λ text. text.items ≡ bytes.now) }
    ensures memory { IfErr result (λ stop. stop ≡ Stop.Memory) }
{
    let text = line(alloc, bytes)?;
    Ok(text)
}

/// The answer that may be shown.
fn shown_of<'a>(store: &Store, session: &Session, journal: &'a [CheckRecord]) -> Option<&'a Answer>
    requires has { All (HasRecord store.now) journal.now }
    ensures shown { option_map (answer_tree store.now) (option_copied result) ≡ (if session.now.shows then last_answer (record_trees store.now journal.now) else None) }
    ensures has { IfSome result (λ answer. HasAnswer store.now answer.now) }
{
    if !session.shows {
        return None;
    }
    match journal.last() {
        None => None,
        Some(record) => Some(&record.answer),
    }
}
