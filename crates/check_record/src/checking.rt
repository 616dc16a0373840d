//! Checks, and runs of strategies alone.
ghost use Rattle.std.specs.Prelude.{◌≡◌, ◌≤◌, ◌+◌, ◌^◌, ◌↔◌, All, IfOk, IfSome, None, true};
ghost use Rattle.qterm.specs.declared.name.Sort.TheVariants.{Bool};
ghost use Rattle.qterm.specs.Store.{HasSort, Extends, trees_of};
ghost use Rattle.qgoal.specs.Meaning.{IsModel};
ghost use Rattle.cert_items.specs.Truth.{Unsatisfiable};
ghost use Rattle.tac_cert.specs.Accepts.{Accepts, CertFits};
ghost use Rattle.goal_depth.specs.Depths.{AreShallow};
ghost use Rattle.lang_runs.specs.Strategies.{runs};
ghost use Rattle.check_answer.specs.declared.answers.Answer.TheVariants as answers;
ghost use Rattle.check_answer.specs.declared.answers.Why.TheVariants as why;
ghost use Rattle.check_answer.specs.Answers.{IfSat, IfUnsat};
ghost use Rattle.check_record.specs.Records.{IsChecked, IsApplied, IsTotal};

use crate::answering::{answered, handed_on};
use crate::kept::{CheckRecord, own_copies, recorded};
use crate::running::{Ended, run};
use check_answer::{Answer, Why};
use qterm::{Store, TermId};
use reducer_iface::{Reducers, Registry, rows_are_honest};
use std::alloc::{AllocError, Global};
use strat_text::Strategy;

/// The check of that number of the assertions by a strategy, as a record.
///
/// The strategy is run by one worker, on the precise goal of the assertions, without a limit and with the default parameters. The answer
/// is what its derivation decides: sat where one of the goals is, with the model of the first such goal, carried back; unsat where all
/// are, with a certificate; else unknown with the goals, or with the cause where the strategy failed. A number past 128 bits on the way
/// back is told by its name. The lemmas drawn are all that the derivation's reducers spent, or one past the pool where these are more. The Err is for the record's own copies of the assertions and the strategy; any later want of memory is the
/// answer `Why::Memory`, and then alone there is no derivation.
pub fn check(
    alloc: Global,
    registry: &Registry,
    store: &mut Store,
    number: u32,
    asserts: &[TermId],
    strategy: &Strategy,
    workers: u32,
    pool: u64,
) -> Result<CheckRecord, AllocError>
    requires runs { runs (⟦<Registry as Reducers>⟧.kinds registry.now) strategy.now ≡ true }
    requires asserts { All (HasSort Bool store.old) asserts.now }
    requires shallow { AreShallow (trees_of store.old asserts.now) }
    requires workers { workers ≡ 1 }
    requires pool { (1 ≤ pool) × (pool ≤ 2 ^ 62) }
    ensures number { IfOk result (λ r. r.number ≡ number) }
    ensures asserts { IfOk result (λ r. r.asserts ≡ asserts.now) }
    ensures strategy { IfOk result (λ r. r.strategy ≡ strategy.now) }
    ensures workers { IfOk result (λ r. r.workers ≡ workers) }
    ensures pool { IfOk result (λ r. r.pool ≡ pool) }
    ensures decided { IfOk result (IsChecked (⟦<Registry as Reducers>⟧.kinds registry.now) store.new) }
    ensures memory { IfOk result (λ r. (r.deriv ≡ None) ↔ (r.answer ≡ answers.Unknown why.Memory)) }
    ensures sat { IfOk result (λ r. IfSat (λ model. IsModel model (trees_of store.new asserts.now)) r.answer) }
    ensures accepted { IfOk result (λ r. IfUnsat (λ cert. Accepts store.new cert (trees_of store.new asserts.now)) r.answer) }
    ensures head { IfOk result (λ r. IfUnsat (λ cert. cert.check ≡ number) r.answer) }
    ensures terms { IfOk result (λ r. IfUnsat (CertFits store.new) r.answer) }
    ensures unsat { IfOk result (λ r. IfUnsat (λ _. Unsatisfiable (trees_of store.new asserts.now)) r.answer) }
    ensures drawn { IfOk result (λ r. IfSome r.deriv (IsTotal pool r.drawn)) }
    ensures most { IfOk result (λ r. r.drawn ≤ pool + workers) }
    ensures store { Extends store.old store.new }
{
    rows_are_honest();
    let asked = own_copies(alloc, number, asserts, strategy, workers, pool)?;
    let Ended { ran, drawn } = run(alloc, registry, store, asserts, strategy, workers, pool);
    let told = answered(alloc, store, number, asserts, ran);
    Ok(recorded(asked, told, Answer::Unknown(Why::Memory), drawn))
}

/// The run of a strategy alone on the assertions, as a record: `number` is how many checks came before it. The answer has the goals of
/// its derivation, or the cause where the strategy failed. For the rest it is as `check`.
pub fn apply_only(
    alloc: Global,
    registry: &Registry,
    store: &mut Store,
    number: u32,
    asserts: &[TermId],
    strategy: &Strategy,
    workers: u32,
    pool: u64,
) -> Result<CheckRecord, AllocError>
    requires runs { runs (⟦<Registry as Reducers>⟧.kinds registry.now) strategy.now ≡ true }
    requires asserts { All (HasSort Bool store.old) asserts.now }
    requires shallow { AreShallow (trees_of store.old asserts.now) }
    requires workers { workers ≡ 1 }
    requires pool { (1 ≤ pool) × (pool ≤ 2 ^ 62) }
    ensures number { IfOk result (λ r. r.number ≡ number) }
    ensures asserts { IfOk result (λ r. r.asserts ≡ asserts.now) }
    ensures strategy { IfOk result (λ r. r.strategy ≡ strategy.now) }
    ensures workers { IfOk result (λ r. r.workers ≡ workers) }
    ensures pool { IfOk result (λ r. r.pool ≡ pool) }
    ensures applied { IfOk result (IsApplied (⟦<Registry as Reducers>⟧.kinds registry.now) store.new) }
    ensures memory { IfOk result (λ r. (r.deriv ≡ None) ↔ (r.answer ≡ answers.NoSubgoals why.Memory)) }
    ensures drawn { IfOk result (λ r. IfSome r.deriv (IsTotal pool r.drawn)) }
    ensures most { IfOk result (λ r. r.drawn ≤ pool + workers) }
    ensures store { Extends store.old store.new }
{
    let asked = own_copies(alloc, number, asserts, strategy, workers, pool)?;
    let Ended { ran, drawn } = run(alloc, registry, store, asserts, strategy, workers, pool);
    let told = handed_on(ran);
    Ok(recorded(asked, told, Answer::NoSubgoals(Why::Memory), drawn))
}
