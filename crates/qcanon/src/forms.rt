//! What was found so far for the terms of a store, which a caller may keep over calls.
ghost use Rattle.std.specs.Prelude.{◌≡◌, List, All, IfOk, OnOk, OnErr, Some, None, cond, nat_eq, ℕ};
ghost use Rattle.std.specs.List.{AllZip};
ghost use Rattle.std.specs.HashMap.{get};
ghost use Rattle.qterm.specs.Tree.{Tree};
ghost use Rattle.qterm.specs.Store.{Has, Extends, tree_at};
ghost use Rattle.qwalk.specs.Walk.{same_id};
ghost use Rattle.qlin.specs.Canon.{canon};
ghost use Rattle.qcanon.specs.Walk.{IsCanon};
ghost use Rattle.qcanon.specs.Chain.{IsSound, IsAnswer, Links, AreForms};

use crate::chain::{Answer, Load, Outcome, Settled, link, link_all};
use crate::error::CanonError;
use crate::walk::canon_with;
use qnegation::Negations;
use qterm::{Store, TermId};
use std::alloc::{AllocError, Global};
use std::collections::HashMap;

/// Canonical forms and negations of terms, by their ids in one store.
///
/// A call that is given the table walks only below terms that the table doesn't know, and puts down what it finds for each of
/// their subterms. The table stays right while the store grows.
#[derive(Drop)]
pub struct Forms {
    pub(crate) alloc: Global,
    known: HashMap<TermId, Answer>,
    pub(crate) negations: Negations,
    pub(crate) settled: Settled,
}

impl Forms {
    /// Nothing found yet, which takes no memory.
    pub fn new(alloc: Global) -> Forms
        ensures right { (ts : List Tree) → AreForms ts result }
    {
        Forms {
            alloc,
            known: HashMap::new(alloc),
            negations: Negations::new(alloc),
            settled: Settled::new(alloc),
        }
    }

    /// The canonical term, or nothing where there is none.
    pub fn find(
        &mut self,
        alloc: Global,
        store: &mut Store,
        id: TermId,
    ) -> Result<Option<TermId>, AllocError>
        requires has { Has store.old id }
        requires forms { AreForms store.old self.old }
        ensures found { IfOk result (IsCanon store.new (canon (tree_at store.old id))) }
        ensures forms { AreForms store.new self.new }
        ensures extends { Extends store.old store.new }
    {
        match canon_with(alloc, store, self, id) {
            Ok(found) => Ok(Some(found)),
            Err(CanonError::TooWide { .. }) => Ok(None),
            Err(CanonError::Memory(error)) => Err(error),
        }
    }

    /// What a term answers, if that is known.
    pub(crate) fn look(&self, id: TermId) -> Option<Answer>
        ensures { result ≡ get same_id self.now.known id }
    {
        self.known.get(&id).copied()
    }

    /// Puts down what a term answers. A canonical term that it has is known to be canonical from then on.
    pub(crate) fn note(&mut self, id: TermId, found: &Answer) -> Result<(), AllocError>
        ensures right { (ts : List Tree) → AreForms ts self.old → Has ts id → IsAnswer ts (tree_at ts id) found.now → AreForms ts self.new }
    {
        self.note_form(id, found)?;
        self.keep(id, found)?;
        Ok(())
    }

    /// Puts down that the canonical term that a term has is its own.
    fn note_form(&mut self, id: TermId, found: &Answer) -> Result<(), AllocError>
        ensures right { (ts : List Tree) → AreForms ts self.old → Has ts id → IsAnswer ts (tree_at ts id) found.now → AreForms ts self.new }
    {
        let Answer::Found(outcome) = found else {
            return Ok(());
        };
        let Outcome::Canonical(form) = outcome else {
            return Ok(());
        };
        if *form == id {
            return Ok(());
        }
        self.keep(*form, found)?;
        Ok(())
    }

    /// Puts down what a term answers.
    fn keep(&mut self, id: TermId, found: &Answer) -> Result<(), AllocError>
        ensures right { (ts : List Tree) → AreForms ts self.old → Has ts id → IsAnswer ts (tree_at ts id) found.now → AreForms ts self.new }
    {
        put(&mut self.known, id, *found)?;
        Ok(())
    }

    /// The canonical term of what a root answered.
    pub(crate) fn settle(
        &mut self,
        store: &mut Store,
        answer: &Answer,
    ) -> Result<Outcome, AllocError>
        requires sound { IsSound store.old answer.now }
        requires forms { AreForms store.old self.old }
        ensures links { IfOk result (Links store.old store.new None answer.now) }
        ensures forms { AreForms store.new self.new }
        ensures extends { Extends store.old store.new }
    {
        let mut load = Load::new();
        let found = link(store, &mut self.settled, None, answer, &mut load)?;
        Ok(found)
    }

    /// The canonical terms of what several roots answered.
    pub(crate) fn settle_all(
        &mut self,
        store: &mut Store,
        answers: &[Answer],
    ) -> Result<Vec<Outcome>, AllocError>
        requires sound { All (IsSound store.old) answers.now }
        requires forms { AreForms store.old self.old }
        ensures links { IfOk result (λ v. AllZip (Links store.old store.new None) answers.now v.items) }
        ensures forms { AreForms store.new self.new }
        ensures extends { Extends store.old store.new }
    {
        let mut load = Load::new();
        let found = link_all(
            self.alloc,
            store,
            &mut self.settled,
            None,
            answers,
            &mut load,
        )?;
        Ok(found)
    }
}

/// Puts a value down for a term.
fn put<T: Copy + Drop>(
    known: &mut HashMap<TermId, T>,
    id: TermId,
    value: T,
) -> Result<(), AllocError>
    ensures ok { OnOk result ((j : ℕ) → get same_id known.new j ≡ cond (nat_eq id j) (Some value) (get same_id known.old j)) }
    ensures err { OnErr result ((j : ℕ) → get same_id known.new j ≡ get same_id known.old j) }
{
    known.insert(id, value)?;
    Ok(())
}
