//! One command of a script: what it makes of the session, the journal and the sink.
//!
//! Contracts see the session and the records over the trees of the store that the command leaves.
ghost use Rattle.std.specs.Prelude.{◌≡◌, ◌⊎◌, ◌≤◌, ◌+◌, ◌++◌, ◌∷◌, [], true, Bool, All, vec_len, vec_capacity, IfErr, OnOk, OnErr};
ghost use Rattle.std.specs.Io.KnownBytes.{Appends};
ghost use Rattle.sexp_read.specs.Outside.{AppendsFront};
ghost use Rattle.qterm.specs.Store.{Extends};
ghost use Rattle.strat_text.specs.declared.strategy.Strategy.{Strategy as Strategies};
ghost use Rattle.lang_runs.specs.Strategies.{runs};
ghost use Rattle.smt_words.specs.Command.{placed_tree};
ghost use Rattle.script_text.specs.Answers.{answer_text};
ghost use Rattle.script_text.specs.Session.{session_tree};
ghost use Rattle.script_text.specs.Output.{deed_of, Checks, Applies};
ghost use Rattle.script_run.specs.Records.{HasRecord, IsRight, IsKept, record_trees, last_answer};
ghost use Rattle.script_shown.specs.Trees.{answer_tree};
ghost use Rattle.script_run.specs.Steps as spec;

use crate::checks::{Decider, keep};
use crate::passing::pass;
use check_record::CheckRecord;
use qterm::Store;
use script_shown::{Stop, unknown_reducer, write_answer};
use script_text::Session;
use sexp_read::{Sink, write_whole};
use smt_words::{Command, Placed};
use std::alloc::Global;
use strat_text::Strategy;

/// Does one command, and writes its text.
pub(crate) fn step<R: Decider, K: Sink>(
    alloc: Global,
    decider: &R,
    store: &mut Store,
    bytes: &[u8],
    session: &mut Session,
    journal: &mut Vec<CheckRecord>,
    placed: &Placed,
    out: &mut K,
) -> Result<(), Stop>
    requires has { All (HasRecord store.old) journal.old.items }
    requires sound { spec.IsSound store.old session.old }
    requires within { spec.IsCommandIn store.old bytes.now placed.now.command }
    ensures leaves { spec.Leaves (deed_of (spec.setting (R.kinds decider.now) bytes.now) (session_tree store.new (last_answer (record_trees store.new journal.old.items)) session.old) (placed_tree store.new placed.now)) (session_tree store.new (last_answer (record_trees store.new journal.old.items)) session.old) (session_tree store.new (last_answer (record_trees store.new journal.new.items)) session.new) (record_trees store.new journal.old.items) (record_trees store.new journal.new.items) (K.written out.old) (K.written out.new) result }
    ensures sound { OnOk result (spec.IsSound store.new session.new) }
    ensures has { All (HasRecord store.new) journal.new.items }
    ensures right { All (IsRight store.old) journal.old.items → All (IsRight store.new) journal.new.items }
    ensures kept { All (IsKept (R.kinds decider.now) store.old) journal.old.items → All (IsKept (R.kinds decider.now) store.new) journal.new.items }
    ensures store { Extends store.old store.new }
    ensures cause { spec.HasFault (K.faults out.old) (K.faults out.new) result }
{
    match &placed.command {
        Command::CheckSatUsing(strategy) => {
            if !decider.can_decide(strategy) {
                return Err(unknown_reducer(placed.place));
            }
            check_by(alloc, decider, store, session, journal, strategy, out)
        }
        Command::Apply(strategy) => {
            if !decider.can_decide(strategy) {
                return Err(unknown_reducer(placed.place));
            }
            apply_by(alloc, decider, store, session, journal, strategy, out)
        }
        _ => write_passed(alloc, store, bytes, session, journal, placed, out),
    }
}

/// Does a command that makes no record, and writes its text.
fn write_passed<K: Sink>(
    alloc: Global,
    store: &Store,
    bytes: &[u8],
    session: &mut Session,
    journal: &[CheckRecord],
    placed: &Placed,
    out: &mut K,
) -> Result<(), Stop>
    requires has { All (HasRecord store.now) journal.now }
    requires sound { spec.IsSound store.now session.old }
    requires within { spec.IsCommandIn store.now bytes.now placed.now.command }
    requires plain { spec.IsPlain placed.now.command }
    ensures leaves { (can_run : Strategies → Bool) → spec.Leaves (deed_of (record { can_run = can_run; bytes = bytes.now }) (session_tree store.now (last_answer (record_trees store.now journal.now)) session.old) (placed_tree store.now placed.now)) (session_tree store.now (last_answer (record_trees store.now journal.now)) session.old) (session_tree store.now (last_answer (record_trees store.now journal.now)) session.new) (record_trees store.now journal.now) (record_trees store.now journal.now) (K.written out.old) (K.written out.new) result }
    ensures sound { OnOk result (spec.IsSound store.now session.new) }
    ensures cause { spec.HasFault (K.faults out.old) (K.faults out.new) result }
{
    match pass(alloc, store, bytes, session, journal, placed) {
        Err(stop) => Err(stop),
        Ok(text) => write_text(out, &text),
    }
}

/// Decides the assertions by a strategy that can run, keeps the record, and writes the answer.
fn check_by<R: Decider, K: Sink>(
    alloc: Global,
    decider: &R,
    store: &mut Store,
    session: &mut Session,
    journal: &mut Vec<CheckRecord>,
    strategy: &Strategy,
    out: &mut K,
) -> Result<(), Stop>
    requires runs { runs (R.kinds decider.now) strategy.now ≡ true }
    requires has { All (HasRecord store.old) journal.old.items }
    requires sound { spec.IsSound store.old session.old }
    ensures leaves { spec.Leaves (Checks strategy.now) (session_tree store.new (last_answer (record_trees store.new journal.old.items)) session.old) (session_tree store.new (last_answer (record_trees store.new journal.new.items)) session.new) (record_trees store.new journal.old.items) (record_trees store.new journal.new.items) (K.written out.old) (K.written out.new) result }
    ensures sound { OnOk result (spec.IsSound store.new session.new) }
    ensures has { All (HasRecord store.new) journal.new.items }
    ensures right { All (IsRight store.old) journal.old.items → All (IsRight store.new) journal.new.items }
    ensures kept { All (IsKept (R.kinds decider.now) store.old) journal.old.items → All (IsKept (R.kinds decider.now) store.new) journal.new.items }
    ensures store { Extends store.old store.new }
    ensures cause { spec.HasFault (K.faults out.old) (K.faults out.new) result }
{
    // The room for the record is taken before the check begins.
    journal.reserve(1)?;
    match decider.checked(alloc, store, session, strategy) {
        Err(stop) => Err(stop),
        Ok(made) => {
            session.checks = made.number;
            session.shows = true;
            write_made(alloc, store, journal, made, out)
        }
    }
}

/// Runs a strategy that can run on the assertions, keeps the record, and writes the goals.
fn apply_by<R: Decider, K: Sink>(
    alloc: Global,
    decider: &R,
    store: &mut Store,
    session: &mut Session,
    journal: &mut Vec<CheckRecord>,
    strategy: &Strategy,
    out: &mut K,
) -> Result<(), Stop>
    requires runs { runs (R.kinds decider.now) strategy.now ≡ true }
    requires has { All (HasRecord store.old) journal.old.items }
    requires sound { spec.IsSound store.old session.old }
    ensures leaves { spec.Leaves (Applies strategy.now) (session_tree store.new (last_answer (record_trees store.new journal.old.items)) session.old) (session_tree store.new (last_answer (record_trees store.new journal.new.items)) session.new) (record_trees store.new journal.old.items) (record_trees store.new journal.new.items) (K.written out.old) (K.written out.new) result }
    ensures sound { OnOk result (spec.IsSound store.new session.new) }
    ensures has { All (HasRecord store.new) journal.new.items }
    ensures right { All (IsRight store.old) journal.old.items → All (IsRight store.new) journal.new.items }
    ensures kept { All (IsKept (R.kinds decider.now) store.old) journal.old.items → All (IsKept (R.kinds decider.now) store.new) journal.new.items }
    ensures store { Extends store.old store.new }
    ensures cause { spec.HasFault (K.faults out.old) (K.faults out.new) result }
{
    // The room for the record is taken before the run begins.
    journal.reserve(1)?;
    match decider.applied(alloc, store, session, strategy) {
        Err(stop) => Err(stop),
        Ok(made) => {
            session.shows = false;
            write_made(alloc, store, journal, made, out)
        }
    }
}

/// Keeps a record that was made, in the room that was taken for it, and writes its answer.
fn write_made<K: Sink>(
    alloc: Global,
    store: &Store,
    journal: &mut Vec<CheckRecord>,
    made: CheckRecord,
    out: &mut K,
) -> Result<(), Stop>
    requires room { vec_len journal.old + 1 ≤ vec_capacity journal.old }
    requires has { HasRecord store.now made }
    ensures kept { journal.new.items ≡ journal.old.items ++ made ∷ [] }
    ensures whole { OnOk result (Appends (K.written out.old) (K.written out.new) (answer_text (answer_tree store.now made.answer))) }
    ensures front { OnErr result (AppendsFront (K.written out.old) (K.written out.new) (answer_text (answer_tree store.now made.answer))) }
    ensures stop { IfErr result (λ stop. (stop ≡ Stop.Memory) ⊎ (stop ≡ Stop.WriteFault)) }
    ensures cause { spec.HasFault (K.faults out.old) (K.faults out.new) result }
{
    let text = write_answer(alloc, store, &made.answer);
    keep(journal, made);
    match text {
        Err(_) => Err(Stop::Memory),
        Ok(text) => write_text(out, &text),
    }
}

/// Writes a text whole, if there is any.
fn write_text<K: Sink>(out: &mut K, text: &[u8]) -> Result<(), Stop>
    ensures whole { OnOk result (Appends (K.written out.old) (K.written out.new) text.now) }
    ensures front { OnErr result (AppendsFront (K.written out.old) (K.written out.new) text.now) }
    ensures stop { IfErr result (λ stop. stop ≡ Stop.WriteFault) }
    ensures cause { spec.HasFault (K.faults out.old) (K.faults out.new) result }
{
    // A command without output leaves the sink alone: a write of nothing would flush.
    if text.is_empty() {
        return Ok(());
    }
    match write_whole(out, text) {
        Err(_) => Err(Stop::WriteFault),
        Ok(()) => Ok(()),
    }
}
