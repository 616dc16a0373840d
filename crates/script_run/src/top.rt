//! All that the program does, from its words and its script to what it writes.
ghost use Rattle.std.specs.Prelude.{◌≡◌, [], true, false, ℕ, List, All, map, string_bytes};
ghost use Rattle.sexp_read.specs.Outside.{Rose};
ghost use Rattle.qterm.specs.Store.{Extends};
ghost use Rattle.smt_words.specs.Command.{script_tree};
ghost use Rattle.smt_command.specs.Script.{script_of};
ghost use Rattle.script_text.specs.Session.{start};
ghost use Rattle.script_text.specs.Shown.{fault_line};
ghost use Rattle.script_text.specs.Output.{over, AreRecords};
ghost use Rattle.script_run.specs.Records.{HasRecord, IsRight, IsKept, record_trees};
ghost use Rattle.script_run.specs.Steps.{IsCommandIn, setting};
ghost use Rattle.script_run.specs.Run as spec;

use crate::checks::Decider;
use crate::running::do_commands;
use check_record::CheckRecord;
use qterm::Store;
use reducer_iface::Registry;
use script_shown::Stop;
use script_text::write_fault;
use sexp_read::{ReadEnd, Sink, Source, read_all, write_whole};
use smt_command::commands;
use smt_words::{Script, ScriptError, What};
use std::alloc::Global;
use std::thread::Threads;

/// The line for wrong words.
pub const USAGE: &[u8] = b"usage: tacsmt run\n";

/// How a run ends.
#[derive(Clone, Copy, Debug, PartialEq, Eq)]
pub enum Ended {
    /// The script was read to its end or to `exit`, and all of its commands were done.
    Done,
    /// A command can't be read or done.
    Fault,
    /// The words aren't those of the program.
    Usage,
    /// There is no memory, outside of a check.
    Memory,
    /// The source failed.
    ReadFault,
    /// The sink failed.
    WriteFault,
}

/// What a run leaves beside what it wrote.
#[derive(Drop)]
pub struct Finished {
    /// 0 where the script was read to its end or to `exit`, 1 at its first fault, 2 for wrong words, 3 for want of memory
    /// outside of a check, 4 where the source failed and 5 where the sink failed.
    pub status: u8,
    /// The terms of the journal.
    pub store: Store,
    /// The checks in order.
    pub journal: Vec<CheckRecord>,
}

/// The most bytes of a script.
pub const MOST: usize = 67_108_864;

/// The word for running a script.
pub const RUN: &[u8] = b"run";

/// All that the program does: with the one word `run` the script is read whole and run, and its answers are written;
/// with other words the usage line is written, and the script isn't read.
///
/// The contract sees the journal as records of trees. It says which text is written, as a function of the script's
/// bytes and the journal, and that each answer of the journal is right.
pub fn run<R: Threads, S: Source, K: Sink>(
    _rt: &R,
    alloc: Global,
    words: &[String],
    registry: &Registry,
    script: &mut S,
    out: &mut K,
) -> Finished
    // With the word `run` the script is read and run.
    ensures run { spec.is_run (map (λ word. string_bytes word) words.now) ≡ true → (ended : Ended) × (result.status ≡ spec.code ended)
        × spec.RanFrom (⟦<Registry as Decider>⟧.kinds registry.now) (S.left script.old) (record_trees result.store result.journal.items) (K.written out.old) (K.written out.new) (K.flushed out.new) ended
        × spec.TakesScript (S.left script.old) (S.left script.new) ended }

    // With other words nothing is read, and the usage line is written.
    ensures usage { spec.is_run (map (λ word. string_bytes word) words.now) ≡ false → (ended : Ended) × (result.status ≡ spec.code ended)
        × spec.Misused (K.written out.old) (K.written out.new) (K.flushed out.new) ended × (S.left script.new ≡ S.left script.old) × (result.journal.items ≡ []) }

    // The terms of a record are in the store that is handed back.
    ensures has { All (HasRecord result.store) result.journal.items }

    // Each sat has a model that makes all of its assertions true; at each unsat no valuation does.
    ensures right { All (IsRight result.store) result.journal.items }

    // Each record is that of a check, or of an `apply`, by one worker with the whole pool.
    ensures kept { All (IsKept (⟦<Registry as Decider>⟧.kinds registry.now) result.store) result.journal.items }

    // A failed read is told only where the source's count of faults rose.
    ensures read_fault { result.status ≡ 4 → Rose (S.faults script.old) (S.faults script.new) }

    // A failed write is told only where the sink's count of faults rose.
    ensures write_fault { result.status ≡ 5 → Rose (K.faults out.old) (K.faults out.new) }
{
    let mut store = Store::new(alloc);
    let mut journal = Vec::new(alloc);
    let ended = if is_run(words) {
        run_script(alloc, registry, &mut store, script, &mut journal, out)
    } else {
        misused(out)
    };
    Finished {
        status: code(ended),
        store,
        journal,
    }
}

// Whether the words are the one word `run`.
fn is_run(words: &[String]) -> bool
    ensures { result ≡ spec.is_run (map (λ word. string_bytes word) words.now) }
{
    match words {
        [word] => word.as_bytes() == RUN,
        _ => false,
    }
}

// The status of a program that ends so.
fn code(ended: Ended) -> u8
    ensures { result ≡ spec.code ended }
{
    match ended {
        Ended::Done => 0,
        Ended::Fault => 1,
        Ended::Usage => 2,
        Ended::Memory => 3,
        Ended::ReadFault => 4,
        Ended::WriteFault => 5,
    }
}

// Writes the usage line.
fn misused<K: Sink>(out: &mut K) -> Ended
    ensures ran { spec.Misused (K.written out.old) (K.written out.new) (K.flushed out.new) result }
    ensures cause { spec.HasCauseOf (K.faults out.old) (K.faults out.new) result }
{
    match write_whole(out, USAGE) {
        Ok(()) => Ended::Usage,
        Err(_) => Ended::WriteFault,
    }
}

// Runs a script from its source.
fn run_script<R: Decider, S: Source, K: Sink>(
    alloc: Global,
    decider: &R,
    store: &mut Store,
    script: &mut S,
    journal: &mut Vec<CheckRecord>,
    out: &mut K,
) -> Ended
    requires { journal.old.items ≡ [] }
    ensures has { All (HasRecord store.new) journal.new.items }
    ensures right { All (IsRight store.new) journal.new.items }
    ensures kept { All (IsKept (R.kinds decider.now) store.new) journal.new.items }
    ensures ran { spec.RanFrom (R.kinds decider.now) (S.left script.old) (record_trees store.new journal.new.items) (K.written out.old) (K.written out.new) (K.flushed out.new) result }
    ensures left { spec.TakesScript (S.left script.old) (S.left script.new) result }
    ensures read { result ≡ Ended.ReadFault → Rose (S.faults script.old) (S.faults script.new) }
    ensures cause { spec.HasCauseOf (K.faults out.old) (K.faults out.new) result }
{
    match read_all(alloc, script, MOST) {
        Err(ReadEnd::Memory(_)) => Ended::Memory,
        Err(ReadEnd::ReadFault) => Ended::ReadFault,
        Err(ReadEnd::TooLong) => too_long(alloc, out),
        Ok(bytes) => run_bytes(alloc, decider, &bytes, store, journal, out),
    }
}

// Writes the line of a script that is too long.
#[tactic(auto, unfolding(script_text::specs::Shown::fault_line, answer_text::specs::Errors::error_line))]
fn too_long<K: Sink>(alloc: Global, out: &mut K) -> Ended
    ensures ran { (bytes : List ℕ) → spec.Ran (fault_line bytes (Some spec.too_long)) (over (Some spec.too_long)) (K.written out.old) (K.written out.new) (K.flushed out.new) result }
    ensures cause { spec.HasCauseOf (K.faults out.old) (K.faults out.new) result }
{
    let fault = ScriptError {
        what: What::TooLong,
        place: 0,
    };
    finish(alloc, &[], Some(fault), out)
}

// Reads the commands of the bytes, does them, and writes the line of the first fault.
fn run_bytes<R: Decider, K: Sink>(
    alloc: Global,
    decider: &R,
    bytes: &[u8],
    store: &mut Store,
    journal: &mut Vec<CheckRecord>,
    out: &mut K,
) -> Ended
    requires { journal.old.items ≡ [] }
    ensures records { AreRecords (setting (R.kinds decider.now) bytes.now) start (script_of (spec.names_of (R.kinds decider.now)) bytes.now).commands (record_trees store.new journal.new.items) }
    ensures has { All (HasRecord store.new) journal.new.items }
    ensures right { All (IsRight store.new) journal.new.items }
    ensures kept { All (IsKept (R.kinds decider.now) store.new) journal.new.items }
    ensures ran { spec.RanOver (R.kinds decider.now) bytes.now (script_of (spec.names_of (R.kinds decider.now)) bytes.now) (record_trees store.new journal.new.items) (K.written out.old) (K.written out.new) (K.flushed out.new) result }
    ensures cause { spec.HasCauseOf (K.faults out.old) (K.faults out.new) result }
{
    let Ok(names) = decider.reducer_names(alloc) else {
        return Ended::Memory;
    };
    match commands(alloc, bytes, store, Some(names.as_slice())) {
        Err(_) => Ended::Memory,
        Ok(script) => run_commands(alloc, decider, store, bytes, &script, journal, out),
    }
}

// Does the commands and writes the line of the first fault.
fn run_commands<R: Decider, K: Sink>(
    alloc: Global,
    decider: &R,
    store: &mut Store,
    bytes: &[u8],
    script: &Script,
    journal: &mut Vec<CheckRecord>,
    out: &mut K,
) -> Ended
    requires within { All (λ placed. IsCommandIn store.old bytes.now placed.command) script.now.commands }
    requires empty { journal.old.items ≡ [] }
    ensures records { AreRecords (setting (R.kinds decider.now) bytes.now) start (script_tree store.old script.now).commands (record_trees store.new journal.new.items) }
    ensures has { All (HasRecord store.new) journal.new.items }
    ensures right { All (IsRight store.new) journal.new.items }
    ensures kept { All (IsKept (R.kinds decider.now) store.new) journal.new.items }
    ensures ran { spec.RanOver (R.kinds decider.now) bytes.now (script_tree store.old script.now) (record_trees store.new journal.new.items) (K.written out.old) (K.written out.new) (K.flushed out.new) result }
    ensures cause { spec.HasCauseOf (K.faults out.old) (K.faults out.new) result }
{
    match do_commands(alloc, decider, store, bytes, script, journal, out) {
        Ok(()) => finish(alloc, bytes, script.fault, out),
        Err(Stop::Fault(fault)) => finish(alloc, bytes, Some(fault), out),
        Err(Stop::Memory) => Ended::Memory,
        Err(Stop::WriteFault) => Ended::WriteFault,
    }
}

// Writes the line of the first fault, if there is one.
fn finish<K: Sink>(alloc: Global, bytes: &[u8], fault: Option<ScriptError>, out: &mut K) -> Ended
    ensures ran { spec.Ran (fault_line bytes.now fault) (over fault) (K.written out.old) (K.written out.new) (K.flushed out.new) result }
    ensures cause { spec.HasCauseOf (K.faults out.old) (K.faults out.new) result }
{
    let Ok(line) = write_fault(alloc, bytes, fault) else {
        return Ended::Memory;
    };
    match write_whole(out, &line) {
        Err(_) => Ended::WriteFault,
        Ok(()) => match fault {
            None => Ended::Done,
            Some(_) => Ended::Fault,
        },
    }
}
