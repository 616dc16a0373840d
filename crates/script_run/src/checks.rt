//! The records of checks, and of runs of a strategy alone.
ghost use Rattle.std.specs.Prelude.{◌≡◌, ◌≤◌, ◌+◌, ◌++◌, ◌∷◌, [], true, All, vec_len, vec_capacity, map, IfOk, IfErr};
ghost use Rattle.qterm.specs.Store.{Extends};
ghost use Rattle.lang_runs.specs.Strategies.{runs};
ghost use Rattle.script_text.specs.Session.{IsOfCheck, IsOfApply};
ghost use Rattle.script_shown.specs.Trees.{answer_tree};
ghost use Rattle.script_run.specs.Records.{HasRecord, IsRight, IsMade};
ghost use Rattle.script_run.specs.Steps as spec;

use check_record::{CheckRecord, apply_only, can_run, check};
use qterm::Store;
use reducer_iface::{Reducers, Registry};
use script_shown::Stop;
use script_text::Session;
use std::alloc::{AllocError, Global};
use strat_text::{ReducerName, Strategy};

/// How many lemmas a check may draw.
const POOL: u64 = 1 << 62;

/// What decides the assertions of a session by a strategy.
pub trait Decider: Reducers {
    /// The names of the reducers, in order.
    fn reducer_names(&self, alloc: Global) -> Result<Vec<ReducerName>, AllocError>
        ensures { IfOk result (λ names. names.items ≡ map (λ e. e.0) (Self.kinds self.now)) };

    /// Whether a strategy can run.
    fn can_decide(&self, strategy: &Strategy) -> bool
        ensures { result ≡ runs (Self.kinds self.now) strategy.now };

    /// The record of the next check, by a strategy that can run.
    fn checked(
        &self,
        alloc: Global,
        store: &mut Store,
        session: &Session,
        strategy: &Strategy,
    ) -> Result<CheckRecord, Stop>
        requires runs { runs (Self.kinds self.now) strategy.now ≡ true }
        requires sound { spec.IsSound store.old session.now }
        ensures number { IfOk result (λ r. r.number ≡ session.now.checks + 1) }
        ensures asserts { IfOk result (λ r. r.asserts ≡ session.now.asserts) }
        ensures strategy { IfOk result (λ r. r.strategy ≡ strategy.now) }
        ensures made { IfOk result (IsMade (Self.kinds self.now) store.new) }
        ensures kind { IfOk result (λ r. IsOfCheck (answer_tree store.new r.answer)) }
        ensures has { IfOk result (HasRecord store.new) }
        ensures right { IfOk result (IsRight store.new) }
        ensures memory { IfErr result (λ stop. stop ≡ Stop.Memory) }
        ensures store { Extends store.old store.new };

    /// The record of a strategy that can run, and is run alone.
    fn applied(
        &self,
        alloc: Global,
        store: &mut Store,
        session: &Session,
        strategy: &Strategy,
    ) -> Result<CheckRecord, Stop>
        requires runs { runs (Self.kinds self.now) strategy.now ≡ true }
        requires sound { spec.IsSound store.old session.now }
        ensures number { IfOk result (λ r. r.number ≡ session.now.checks) }
        ensures asserts { IfOk result (λ r. r.asserts ≡ session.now.asserts) }
        ensures strategy { IfOk result (λ r. r.strategy ≡ strategy.now) }
        ensures made { IfOk result (IsMade (Self.kinds self.now) store.new) }
        ensures kind { IfOk result (λ r. IsOfApply (answer_tree store.new r.answer)) }
        ensures has { IfOk result (HasRecord store.new) }
        ensures right { IfOk result (IsRight store.new) }
        ensures memory { IfErr result (λ stop. stop ≡ Stop.Memory) }
        ensures store { Extends store.old store.new };
}

impl Decider for Registry {
    fn reducer_names(&self, alloc: Global) -> Result<Vec<ReducerName>, AllocError> {
        self.names(alloc)
    }

    fn can_decide(&self, strategy: &Strategy) -> bool {
        can_run(self, strategy)
    }

    fn checked(
        &self,
        alloc: Global,
        store: &mut Store,
        session: &Session,
        strategy: &Strategy,
    ) -> Result<CheckRecord, Stop> {
        let Some(number) = session.checks.checked_add(1) else {
            return Err(Stop::Memory);
        };
        let asserts = session.asserts.as_slice();
        let made = check(alloc, self, store, number, asserts, strategy, 1, POOL)?;
        Ok(made)
    }

    fn applied(
        &self,
        alloc: Global,
        store: &mut Store,
        session: &Session,
        strategy: &Strategy,
    ) -> Result<CheckRecord, Stop> {
        let number = session.checks;
        let asserts = session.asserts.as_slice();
        let made = apply_only(alloc, self, store, number, asserts, strategy, 1, POOL)?;
        Ok(made)
    }
}

/// Keeps a record in the room that was taken for it.
pub(crate) fn keep(journal: &mut Vec<CheckRecord>, made: CheckRecord)
    requires { vec_len journal.old + 1 ≤ vec_capacity journal.old }
    ensures { journal.new.items ≡ journal.old.items ++ made ∷ [] }
{
    match journal.push(made) {
        Ok(()) => {}
        Err(_) => unreachable!(),
    }
}
