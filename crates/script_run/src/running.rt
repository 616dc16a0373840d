//! The commands of a script, one after another.
ghost use Rattle.std.specs.Prelude.{◌≡◌, [], All, OnOk};
ghost use Rattle.qterm.specs.Store.{Extends};
ghost use Rattle.smt_words.specs.Command.{script_tree};
ghost use Rattle.script_text.specs.Session.{start};
ghost use Rattle.script_text.specs.Output.{AreRecords};
ghost use Rattle.script_run.specs.Records.{HasRecord, IsRight, IsKept, record_trees};
ghost use Rattle.script_run.specs.Steps.{IsCommandIn, HasFault, setting};
ghost use Rattle.script_run.specs.Went.{Went};

use crate::checks::Decider;
use crate::stepping::step;
use check_record::CheckRecord;
use qterm::Store;
use script_shown::Stop;
use script_text::begin;
use sexp_read::Sink;
use smt_words::Script;
use std::alloc::Global;

/// Does the commands of a script in order, and writes their texts.
///
/// Where a command can't be done, its fault is told and its line isn't written yet.
pub fn do_commands<R: Decider, K: Sink>(
    alloc: Global,
    decider: &R,
    store: &mut Store,
    bytes: &[u8],
    script: &Script,
    journal: &mut Vec<CheckRecord>,
    out: &mut K,
) -> Result<(), Stop>
    requires within { All (λ placed. IsCommandIn store.old bytes.now placed.command) script.now.commands }
    requires empty { journal.old.items ≡ [] }
    ensures records { AreRecords (setting (R.kinds decider.now) bytes.now) start (script_tree store.old script.now).commands (record_trees store.new journal.new.items) }
    ensures has { All (HasRecord store.new) journal.new.items }
    ensures right { All (IsRight store.new) journal.new.items }
    ensures kept { All (IsKept (R.kinds decider.now) store.new) journal.new.items }
    ensures went { Went (setting (R.kinds decider.now) bytes.now) (script_tree store.old script.now).commands script.now.fault (record_trees store.new journal.new.items) (K.written out.old) (K.written out.new) result }
    ensures store { Extends store.old store.new }
    ensures cause { HasFault (K.faults out.old) (K.faults out.new) result }
{
    let mut session = begin(alloc);
    for placed in script.commands.as_slice() {
        step(
            alloc,
            decider,
            store,
            bytes,
            &mut session,
            journal,
            placed,
            out,
        )?;
    }
    Ok(())
}
