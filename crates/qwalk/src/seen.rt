//! The distinct subterms of terms.
ghost use Rattle.std.specs.Prelude.{◌≡◌, ◌<◌, ◌≤◌, ◌↔◌, ◌++◌, ℕ, [], All, Contains, length, take, IsTrue, IfOk, IfSome, IfNone, OnOk};
ghost use Rattle.qterm.specs.Store.{Has, trees_of};
ghost use Rattle.qwalk.specs.Subterms.{HasSubterms, HasMoreSubterms};
ghost use Rattle.qwalk.specs.Seen.{AreSubterms};

use crate::below::take_below;
use indexmap::IndexSet;
use qterm::{Store, TermId};
use std::alloc::{AllocError, Global};
use std::marker::Model;

/// The ids of some terms and of all their subterms, each once, in the order in which they were found. Contracts see the list.
#[derive(Drop)]
pub struct Seen {
    found: IndexSet<TermId>,
}

impl Model for Seen {
    ghost use Rattle.std.specs.Prelude.{List, ℕ};

    ghost Value = { List ℕ };

    ghost view = { λ s. s.found.keys };
}

impl Seen {
    /// No ids, which takes no memory.
    pub fn new(alloc: Global) -> Seen
        ensures { result ≡ [] }
    {
        Seen {
            found: IndexSet::new(alloc),
        }
    }

    /// Takes in the ids of terms and of all their subterms, where they aren't there.
    ///
    /// What is below an id that is there is there too, and isn't visited again: the cost is in proportion to the terms that
    /// are new, with their children.
    pub fn see(&mut self, store: &Store, roots: &[TermId]) -> Result<(), AllocError>
        requires has { All (Has store.now) roots.now }
        requires whole { AreSubterms store.now self.old self.old }
        ensures seen { OnOk result (AreSubterms store.now (self.old ++ roots.now) self.new) }
        ensures front { OnOk result (take (length self.old) self.new ≡ self.old) }
    {
        store.is_distinct();
        take_below(&mut self.found, store, roots, store.size())?;
        Ok(())
    }

    /// Leaves the first `count` ids alone.
    pub fn truncate(&mut self, count: usize)
        ensures { self.new ≡ take count self.old }
    {
        self.found.truncate(count);
    }

    /// Whether the id is there.
    pub fn has(&self, id: TermId) -> bool
        ensures { IsTrue result ↔ Contains self.now id }
    {
        self.found.contains(&id)
    }

    /// The ids in order.
    pub fn ids(&self) -> &[TermId]
        ensures { result.now ≡ self.now }
    {
        self.found.as_slice()
    }

    /// How many ids there are.
    pub fn len(&self) -> usize
        ensures { result ≡ length self.now }
    {
        self.found.len()
    }

    /// Whether there is no id.
    pub fn is_empty(&self) -> bool
        ensures { IsTrue result ↔ (length self.now ≡ 0) }
    {
        self.found.is_empty()
    }
}

/// The ids of the distinct subterms of the terms, each once.
pub fn subterms(alloc: Global, store: &Store, ids: &[TermId]) -> Result<Seen, AllocError>
    requires has { All (Has store.now) ids.now }
    ensures { IfOk result (AreSubterms store.now ids.now) }
{
    let mut seen = Seen::new(alloc);
    seen.see(store, ids)?;
    Ok(seen)
}

/// How many distinct subterms the terms of these ids have, or nothing where there are more than `most`.
///
/// It ends as soon as there are too many.
pub fn count_subterms(
    alloc: Global,
    store: &Store,
    ids: &[TermId],
    most: usize,
) -> Result<Option<usize>, AllocError>
    requires has { All (Has store.now) ids.now }
    ensures count { IfOk result (λ r. IfSome r (HasSubterms (trees_of store.now ids.now))) }
    ensures within { IfOk result (λ r. IfSome r (λ n. n ≤ most)) }
    ensures more { IfOk result (λ r. IfNone r (HasMoreSubterms (trees_of store.now ids.now) most)) }
    ensures above { IfOk result (λ r. IfNone r ((n : ℕ) → HasSubterms (trees_of store.now ids.now) n → most < n)) }
{
    store.is_distinct();
    let mut found = IndexSet::new(alloc);
    if take_below(&mut found, store, ids, most)? {
        Ok(Some(found.len()))
    } else {
        Ok(None)
    }
}
