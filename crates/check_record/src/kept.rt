//! Records of checks.
ghost use Rattle.std.specs.Prelude.{◌≡◌, IfOk, MatchResult, None, Some};

use check_answer::Answer;
use deriv::Deriv;
use qterm::{TermId, TermIds};
use std::alloc::{AllocError, Global};
use strat_text::Strategy;

/// A check, or the run of a strategy alone, with all that its answer rests on.
#[derive(Drop)]
pub struct CheckRecord {
    /// The number of the check, counted from 1; of a run alone how many checks came before it.
    pub number: u32,
    /// The assertions.
    pub asserts: TermIds,
    /// The strategy.
    pub strategy: Strategy,
    /// How many workers it had.
    pub workers: u32,
    /// How many lemmas it might draw, from 1 to 2^62.
    pub pool: u64,
    /// How the strategy ran; nothing exactly where there was no memory.
    pub deriv: Option<Deriv>,
    /// The answer.
    pub answer: Answer,
    /// How many lemmas were drawn in all.
    pub drawn: u64,
}

/// What a check is about: the record's own copies.
#[derive(Drop)]
pub(crate) struct Asked {
    pub(crate) number: u32,
    pub(crate) asserts: TermIds,
    pub(crate) strategy: Strategy,
    pub(crate) workers: u32,
    pub(crate) pool: u64,
}

/// A derivation with the answer that it allows.
#[derive(Drop)]
pub(crate) struct Told {
    pub(crate) deriv: Deriv,
    pub(crate) answer: Answer,
}

/// A copy of ids.
pub(crate) fn copied(alloc: Global, ids: &[TermId]) -> Result<TermIds, AllocError>
    ensures { IfOk result (λ copy. copy ≡ ids.now) }
{
    Ok(TermIds::from_vec(Vec::from_slice(alloc, ids)?))
}

/// The record's own copies of what the check is about.
pub(crate) fn own_copies(
    alloc: Global,
    number: u32,
    asserts: &[TermId],
    strategy: &Strategy,
    workers: u32,
    pool: u64,
) -> Result<Asked, AllocError>
    ensures number { IfOk result (λ a. a.number ≡ number) }
    ensures asserts { IfOk result (λ a. a.asserts ≡ asserts.now) }
    ensures strategy { IfOk result (λ a. a.strategy ≡ strategy.now) }
    ensures workers { IfOk result (λ a. a.workers ≡ workers) }
    ensures pool { IfOk result (λ a. a.pool ≡ pool) }
{
    Ok(Asked {
        number,
        asserts: copied(alloc, asserts)?,
        strategy: strategy.copy(alloc)?,
        workers,
        pool,
    })
}

/// The record of a check that told this, or else, without memory, gives the other answer.
pub(crate) fn recorded(
    asked: Asked,
    told: Result<Told, AllocError>,
    otherwise: Answer,
    drawn: u64,
) -> CheckRecord
    ensures number { result.number ≡ asked.number }
    ensures asserts { result.asserts ≡ asked.asserts }
    ensures strategy { result.strategy ≡ asked.strategy }
    ensures workers { result.workers ≡ asked.workers }
    ensures pool { result.pool ≡ asked.pool }
    ensures deriv { MatchResult told (λ t. result.deriv ≡ Some t.deriv) (λ _. result.deriv ≡ None) }
    ensures answer { MatchResult told (λ t. result.answer ≡ t.answer) (λ _. result.answer ≡ otherwise) }
    ensures drawn { result.drawn ≡ drawn }
{
    let Asked {
        number,
        asserts,
        strategy,
        workers,
        pool,
    } = asked;
    let (deriv, answer) = match told {
        Ok(Told { deriv, answer }) => (Some(deriv), answer),
        Err(_) => (None, otherwise),
    };
    CheckRecord {
        number,
        asserts,
        strategy,
        workers,
        pool,
        deriv,
        answer,
        drawn,
    }
}
