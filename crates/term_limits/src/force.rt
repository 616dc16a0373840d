//! Assertions in force, with their distinct subterms.
ghost use Rattle.std.specs.Prelude.{◌≡◌, ◌++◌, ◌∷◌, [], List, All, IfOk, OnOk, OnErr, take};
ghost use Rattle.qterm.specs.Tree.{Tree};
ghost use Rattle.qterm.specs.Store.{Has, trees_of};
ghost use Rattle.term_limits.specs.Limits as spec;
ghost use Rattle.term_limits.specs.Limits.{IsCounted};

use probe_set::deepest;
use qterm::{Store, TermId};
use qwalk::Seen;
use std::alloc::{AllocError, Global};
use std::marker::Model;

/// What the limits say of the terms of a command.
#[derive(Clone, Copy, Debug, PartialEq, Eq)]
pub enum Limit {
    /// The terms are within the limits.
    Within,
    /// One of the terms is deeper than 1,000.
    TooDeep,
    /// The terms and the assertions in force have more than 1,048,576 distinct subterms.
    TooMany,
}

/// The deepest that a term may be.
pub const DEEPEST: usize = 1_000;

/// The most distinct subterms of the assertions in force and the terms of a command.
pub const MOST: usize = 1_048_576;

/// Assertions in force, with their distinct subterms, and how many of these there were before each assertion.
#[derive(Drop)]
pub struct InForce {
    ids: Vec<TermId>,
    seen: Seen,
    before: Vec<usize>,
}

impl Model for InForce {
    ghost use Rattle.term_limits.specs.Limits.{Counted};

    ghost Value = { Counted };

    ghost view = { λ f. record { ids = f.ids.items; seen = f.seen; before = f.before.items } };
}

impl InForce {
    /// No assertion, which takes no memory.
    pub fn new(alloc: Global) -> InForce
        ensures none { result.ids ≡ [] }
        ensures counted { (ts : List Tree) → IsCounted ts result }
    {
        InForce {
            ids: Vec::new(alloc),
            seen: Seen::new(alloc),
            before: Vec::new(alloc),
        }
    }

    /// The assertions in order.
    pub fn ids(&self) -> &[TermId]
        ensures { result.now ≡ self.now.ids }
    {
        self.ids.as_slice()
    }

    /// What the limits say of terms that a command reads; first of their depth.
    #[tactic(auto, unfolding(crate::specs::Limits::limit_of))]
    pub fn limit(
        &mut self,
        alloc: Global,
        store: &Store,
        read: &[TermId],
    ) -> Result<Limit, AllocError>
        requires counted { IsCounted store.now self.old }
        requires has { All (Has store.now) read.now }
        ensures limit { IfOk result (λ l. l ≡ spec.limit_of (trees_of store.now self.old.ids) (trees_of store.now read.now)) }
        ensures same { OnOk result (self.new ≡ self.old) }
        ensures ids { self.new.ids ≡ self.old.ids }
    {
        if deepest(alloc, store, read)? > DEEPEST {
            return Ok(Limit::TooDeep);
        }
        if self.count_with(store, read)? > MOST {
            Ok(Limit::TooMany)
        } else {
            Ok(Limit::Within)
        }
    }

    /// How many distinct subterms the assertions and some terms have.
    fn count_with(&mut self, store: &Store, read: &[TermId]) -> Result<usize, AllocError>
        requires counted { IsCounted store.now self.old }
        requires has { All (Has store.now) read.now }
        ensures count { IfOk result (λ n. n ≡ spec.subterms_with (trees_of store.now self.old.ids) (trees_of store.now read.now)) }
        ensures same { OnOk result (self.new ≡ self.old) }
        ensures ids { self.new.ids ≡ self.old.ids }
    {
        store.is_distinct();
        let before = self.seen.len();
        self.seen.see(store, read)?;
        let count = self.seen.len();
        self.seen.truncate(before);
        Ok(count)
    }

    /// One more assertion.
    pub fn push(&mut self, store: &Store, id: TermId) -> Result<(), AllocError>
        requires counted { IsCounted store.now self.old }
        requires has { Has store.now id }
        ensures pushed { OnOk result (self.new.ids ≡ self.old.ids ++ id ∷ []) }
        ensures err { OnErr result (self.new.ids ≡ self.old.ids) }
        ensures counted { OnOk result (IsCounted store.now self.new) }
    {
        let before = self.seen.len();
        self.seen.see(store, &[id])?;
        self.before.push(before)?;
        self.ids.push(id)?;
        Ok(())
    }

    /// Leaves the first `count` assertions alone.
    pub fn truncate(&mut self, count: usize)
        ensures kept { self.new.ids ≡ take count self.old.ids }
        ensures counted { (ts : List Tree) → IsCounted ts self.old → IsCounted ts self.new }
    {
        if count < self.before.len() {
            self.seen.truncate(self.before[count]);
        }
        self.before.truncate(count);
        self.ids.truncate(count);
    }
}
