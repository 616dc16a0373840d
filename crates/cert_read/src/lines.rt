//! The terms that have lines, in the order of the lines.
ghost use Rattle.std.specs.Prelude.{◌≡◌, ℕ, ◌+◌, ◌<◌, ◌^◌, List, length, IsOk, [], ◌∷◌, ◌++◌, Contains, Some, slice_get, decimal, IfOk, IfSome, OnOk};
ghost use Rattle.qterm.specs.Store.{Has};
ghost use Rattle.cert_read.specs.Words.{IsRest};

use crate::fault::Fault;
use crate::numbers::numeral;
use crate::words::Words;
use indexmap::IndexSet;
use qterm::{Store, Term, TermId};
use qwalk::{Scan, scan_terms};
use std::alloc::{AllocError, Global};

/// How deep a term may be.
const DEEPEST: u32 = 4_096;

/// The terms that have lines, with their depths. Steps have called for the first `used` of them.
#[derive(Drop)]
pub(crate) struct Lines {
    pub(crate) ids: IndexSet<TermId>,
    pub(crate) depths: Vec<u32>,
    pub(crate) used: usize,
}

impl Lines {
    /// No lines. It takes no memory.
    pub(crate) fn new(alloc: Global) -> Lines
        ensures ids { result.ids.keys ≡ [] }
    {
        Lines {
            ids: IndexSet::new(alloc),
            depths: Vec::new(alloc),
            used: 0,
        }
    }

    /// The term that the next word refers to by the number of its line.
    pub(crate) fn reference(&self, words: &mut Words<'_>) -> Result<TermId, Fault>
        ensures has { IfOk result (Contains self.now.ids.keys) }
        ensures spelled { IfOk result (λ id. (place : ℕ) × (slice_get self.now.ids.keys place ≡ Some id) × (words.old.rest.now ≡ 32 ∷ (35 ∷ (decimal (place + 1) ++ words.new.rest.now)))) }
        ensures read { (place : ℕ) (rest : List ℕ) → place < length self.now.ids.keys → place < 2 ^ 63 → IsRest rest → words.old.rest.now ≡ 32 ∷ (35 ∷ (decimal (place + 1) ++ rest))
            → IsOk result × IfOk result (λ id. slice_get self.now.ids.keys place ≡ Some id) × (words.new.rest.now ≡ rest) }
    {
        match self.place_of(words.word()?) {
            Some(place) => self.id_at(place),
            None => Err(Fault::Malformed),
        }
    }

    /// The term of the line at a place, counted from 0.
    fn id_at(&self, place: usize) -> Result<TermId, Fault>
        ensures has { IfOk result (Contains self.now.ids.keys) }
        ensures place { IfOk result (λ id. slice_get self.now.ids.keys place ≡ Some id) }
        ensures read { place < length self.now.ids.keys → IsOk result }
    {
        match self.ids.as_slice().get(place) {
            Some(id) => Ok(*id),
            None => Err(Fault::Malformed),
        }
    }

    /// The place of the line that a word refers to.
    fn place_of(&self, word: &[u8]) -> Option<usize>
        ensures spelled { IfSome result (λ place. word.now ≡ 35 ∷ decimal (place + 1)) }
        ensures read { (place : ℕ) → place < 2 ^ 63 → word.now ≡ 35 ∷ decimal (place + 1) → result ≡ Some place }
    {
        match word {
            [b'#', digits @ ..] => before(numeral(digits)?),
            _ => None,
        }
    }

    /// Adds the line of a term that has none yet and isn't too deep.
    pub(crate) fn add(&mut self, id: TermId, term_depth: u32) -> Result<(), Fault>
        ensures { OnOk result (self.new.ids.keys ≡ self.old.ids.keys ++ id ∷ []) }
    {
        if term_depth > DEEPEST || self.ids.contains(&id) {
            return Err(Fault::Malformed);
        }
        self.depths.push(term_depth)?;
        self.ids.insert_full(id)?;
        Ok(())
    }

    /// How deep a term is whose children have lines.
    pub(crate) fn depth_over(&self, term: &Term) -> u32 {
        let mut most = 0;
        for at in 0..term.count() {
            most = most.max(self.depth(term.child(at)));
        }
        most.saturating_add(1)
    }

    /// How deep a term is that has a line.
    fn depth(&self, id: TermId) -> u32 {
        match self.ids.get_index_of(&id) {
            Some(place) => self.depths.get(place).copied().unwrap_or(0),
            None => 0,
        }
    }

    /// No step has yet to call for a line.
    pub(crate) fn all_used(&self) -> Result<(), Fault> {
        if self.used == self.ids.len() {
            Ok(())
        } else {
            Err(Fault::Malformed)
        }
    }

    /// Calls for the lines of a term and of the terms below it. They have to stand in the order in which they are written.
    pub(crate) fn call_for(&mut self, alloc: Global, store: &Store, id: TermId) -> Result<(), Fault>
        requires has { Has store.now id }
        ensures ids { self.new.ids ≡ self.old.ids }
    {
        if scan_terms(alloc, store, self, id)? {
            Ok(())
        } else {
            Err(Fault::Malformed)
        }
    }
}

/// The number before another, of the numbers from 0 that places have.
fn before(number: u128) -> Option<usize>
    ensures spelled { IfSome result (λ place. number ≡ place + 1) }
    ensures read { (place : ℕ) → place < 2 ^ 63 → number ≡ place + 1 → result ≡ Some place }
{
    if number == 0 || number > usize::MAX as u128 {
        None
    } else {
        Some((number - 1) as usize)
    }
}

/// Calls for the line of each term, in the order in which they are written: whether it is the next one.
impl Scan<bool> for Lines {
    type Task = IndexSet<TermId>;

    ghost task = { λ l. l.ids };

    ghost right = { λ _ _ _ _. Unit {0} };

    fn known(&self, _store: &Store, id: TermId) -> Option<bool> {
        match self.ids.get_index_of(&id) {
            Some(place) if place < self.used => Some(true),
            _ => None,
        }
    }

    fn node(&mut self, _store: &Store, id: TermId, outs: &[bool]) -> Result<bool, AllocError> {
        if self.ids.get_index_of(&id) != Some(self.used) {
            return Ok(false);
        }
        self.used = self.used.saturating_add(1);
        Ok(outs.iter().all(|out| *out))
    }
}
