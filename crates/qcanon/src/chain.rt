//! And and Or on the walk.
//!
//! The canonical form of each level of a chain has the members of all levels below it, so that to make each would take quadratic
//! time. So an And or Or may stay nested: a term over terms of its kind that aren't joined yet. It is made canonical where this is
//! needed, or once it is four times as large as the largest canonical formula in it. This choice changes no form, only the time.
ghost use Rattle.std.specs.Prelude.{◌≡◌, IfOk, OnOk, OnErr, MatchOption, All, Some, None, Ok, ℕ, List, Bool as Truth, cond, nat_eq, option_map};
ghost use Rattle.std.specs.List.{AllZip};
ghost use Rattle.std.specs.HashMap.{get};
ghost use Rattle.qterm.specs.Tree.{Tree, IsLawful};
ghost use Rattle.qterm.specs.Store.{Has, HasSort, Shows, Extends, tree_at, trees_at};
ghost use Rattle.qterm.specs.Kids.{kids, listed};
ghost use Rattle.qterm.specs.declared.name.Sort.TheVariants.{Bool};
ghost use Rattle.qwalk.specs.Walk.{same_id};
ghost use Rattle.qlin.specs.Canon.{canon};
ghost use Rattle.qlin.specs.Junction.{junction, joined};
ghost use Rattle.qcanon.specs.Chain.{leaves, all_leaves, all_weight, AreParts, IsTaken, IsChain, IsSound, IsAnswer, Links, AreSettled};

use crate::walk::{first_fault, ids_of};
use qnegation::canonical_junction;
use qterm::{Store, Term, TermId, TermIds};
use std::alloc::{AllocError, Global};
use std::collections::HashMap;

/// The canonical term of a term, or its first subterm in postorder that has none.
#[derive(Clone, Copy)]
pub(crate) enum Outcome {
    Canonical(TermId),
    Faulty(TermId),
}

/// What a term answers: what was found, or a term with the same canonical form that is still nested.
#[derive(Clone, Copy)]
pub(crate) enum Answer {
    Found(Outcome),
    Nested(Chain),
}

/// An And or Or whose parts of its kind aren't joined yet.
#[derive(Clone, Copy)]
pub(crate) struct Chain {
    id: TermId,
    is_and: bool,
    load: Load,
}

/// How many connectives and formulas there are, and how many members the largest canonical formula among them has.
#[derive(Clone, Copy)]
pub(crate) struct Load {
    size: usize,
    largest: usize,
}

impl Load {
    /// A connective, over nothing yet.
    pub(crate) fn new() -> Load {
        Load {
            size: 1,
            largest: 0,
        }
    }

    /// Counts what is under a part.
    fn add(&mut self, part: Load) {
        self.size = self.size.saturating_add(part.size);
        if part.largest > self.largest {
            self.largest = part.largest;
        }
    }

    /// Whether the canonical form can wait.
    fn is_light(self) -> bool {
        self.size < self.largest.saturating_mul(4)
    }
}

/// The canonical forms of nested terms that were needed so far.
#[derive(Drop)]
pub(crate) struct Settled {
    alloc: Global,
    known: HashMap<TermId, TermId>,
}

impl Settled {
    /// None yet.
    pub(crate) fn new(alloc: Global) -> Settled
        ensures right { (ts : List Tree) → AreSettled ts result }
    {
        Settled {
            alloc,
            known: HashMap::new(alloc),
        }
    }

    /// Puts the canonical form of a term down.
    fn note(&mut self, id: TermId, found: TermId) -> Result<(), AllocError>
        ensures ok { OnOk result ((j : ℕ) → get same_id self.new.known j ≡ cond (nat_eq id j) (Some found) (get same_id self.old.known j)) }
        ensures err { OnErr result ((j : ℕ) → get same_id self.new.known j ≡ get same_id self.old.known j) }
    {
        self.known.insert(id, found)?;
        Ok(())
    }
}

/// The connective of a term, if it is And or Or: whether it is And.
pub(crate) fn connective(store: &Store, id: TermId) -> Option<bool>
    requires has { Has store.now id }
    ensures { MatchOption result (Unit {0}) (λ k. (is : List ℕ) × (tree_at store.now id ≡ joined k (trees_at store.now is))) }
{
    match store.view(id) {
        Term::And(_) => Some(true),
        Term::Or(_) => Some(false),
        _ => None,
    }
}

/// The answer of an And or Or, from what its children answer.
#[tactic(auto, using(crate::proofs::Nesting::AreSettled_extends))]
pub(crate) fn join(
    alloc: Global,
    store: &mut Store,
    settled: &mut Settled,
    is_and: bool,
    id: TermId,
    answers: &[Answer],
) -> Result<Answer, AllocError>
    requires has { Has store.old id }
    requires connective { (is : List ℕ) × (tree_at store.old id ≡ joined is_and (trees_at store.old is)) }
    requires children { AllZip (IsAnswer store.old) (listed (kids (tree_at store.old id))) answers.now }
    requires settled { AreSettled store.old settled.old }
    ensures right { IfOk result (IsAnswer store.new (tree_at store.old id)) }
    ensures settled { AreSettled store.new settled.new }
    ensures extends { Extends store.old store.new }
{
    store.is_lawful();
    let mut load = Load::new();
    let outs = link_all(alloc, store, settled, Some(is_and), answers, &mut load)?;
    if let Some(fault) = first_fault(outs.as_slice()) {
        return Ok(Answer::Found(Outcome::Faulty(fault)));
    }
    let ids = ids_of(alloc, outs.as_slice())?;
    if load.is_light() {
        let id = nest(store, is_and, ids)?;
        return Ok(Answer::Nested(Chain { id, is_and, load }));
    }
    let form = flatten(alloc, store, is_and, ids.as_slice())?;
    Ok(Answer::Found(Outcome::Canonical(form)))
}

/// And or Or over formulas, as they are.
fn nest(store: &mut Store, is_and: bool, ids: Vec<TermId>) -> Result<TermId, AllocError>
    requires formulas { All (HasSort Bool store.old) ids.items }
    ensures shows { IfOk result (λ r. Shows store.new r (joined is_and (trees_at store.old ids.items))) }
    ensures extends { Extends store.old store.new }
{
    let ids = TermIds::from_vec(ids);
    if is_and {
        store.intern(Term::And(ids))
    } else {
        store.intern(Term::Or(ids))
    }
}

/// The terms that stand for children: below a connective a nested term of its kind stays, and any other is made canonical.
pub(crate) fn link_all(
    alloc: Global,
    store: &mut Store,
    settled: &mut Settled,
    below: Option<bool>,
    answers: &[Answer],
    load: &mut Load,
) -> Result<Vec<Outcome>, AllocError>
    requires sound { All (IsSound store.old) answers.now }
    requires settled { AreSettled store.old settled.old }
    ensures links { IfOk result (λ v. AllZip (Links store.old store.new below) answers.now v.items) }
    ensures settled { AreSettled store.new settled.new }
    ensures extends { Extends store.old store.new }
{
    let mut outs = Vec::new(alloc);
    for answer in answers {
        let out = link(store, settled, below, answer, load)?;
        outs.push(out)?;
    }
    Ok(outs)
}

/// The term that stands for a child, which is counted below a connective.
pub(crate) fn link(
    store: &mut Store,
    settled: &mut Settled,
    below: Option<bool>,
    answer: &Answer,
    load: &mut Load,
) -> Result<Outcome, AllocError>
    requires sound { IsSound store.old answer.now }
    requires settled { AreSettled store.old settled.old }
    ensures links { IfOk result (Links store.old store.new below answer.now) }
    ensures settled { AreSettled store.new settled.new }
    ensures extends { Extends store.old store.new }
{
    match answer {
        Answer::Found(out) => {
            if let Outcome::Canonical(form) = out {
                load.add(load_of(store, below, *form));
            }
            Ok(*out)
        }
        Answer::Nested(chain) => {
            if below == Some(chain.is_and) {
                load.add(chain.load);
                return Ok(Outcome::Canonical(chain.id));
            }
            let form = settle(store, settled, chain)?;
            load.add(load_of(store, below, form));
            Ok(Outcome::Canonical(form))
        }
    }
}

/// The canonical form of a nested term, which is made once.
fn settle(store: &mut Store, settled: &mut Settled, chain: &Chain) -> Result<TermId, AllocError>
    requires chain { IsChain store.old chain.now.is_and chain.now.id }
    requires settled { AreSettled store.old settled.old }
    ensures canonical { IfOk result (λ c. Has store.new c × (canon (tree_at store.old chain.now.id) ≡ Ok (tree_at store.new c))) }
    ensures settled { AreSettled store.new settled.new }
    ensures extends { Extends store.old store.new }
{
    if let Some(form) = settled.known.get(&chain.id).copied() {
        return Ok(form);
    }
    let form = flatten(settled.alloc, store, chain.is_and, &[chain.id])?;
    settled.note(chain.id, form)?;
    Ok(form)
}

/// What a canonical term counts below a connective. One that absorbs the others is too much to wait with.
fn load_of(store: &Store, below: Option<bool>, id: TermId) -> Load
    requires has { Has store.now id }
{
    let Some(is_and) = below else {
        return Load::new();
    };
    match parts(store, is_and, id) {
        Some(ids) => Load {
            size: ids.len(),
            largest: ids.len(),
        },
        None => Load {
            size: if absorbs(store, is_and, id) {
                usize::MAX
            } else {
                1
            },
            largest: 0,
        },
    }
}

/// Whether a term is the constant that absorbs all others below a connective.
fn absorbs(store: &Store, is_and: bool, id: TermId) -> bool
    requires has { Has store.now id }
{
    match store.view(id) {
        Term::True => !is_and,
        Term::False => is_and,
        _ => false,
    }
}

/// The children of a term of this connective.
fn parts(store: &Store, is_and: bool, id: TermId) -> Option<&[TermId]>
    requires has { Has store.now id }
    ensures { AreParts store.now is_and id (option_map (λ is. is.now) result) }
{
    match store.view(id) {
        Term::And(ids) => { if is_and { Some(ids.as_slice()) } else { None } }
        Term::Or(ids) => { if is_and { None } else { Some(ids.as_slice()) } }
        _ => None,
    }
}

/// The canonical And or Or of the formulas under nested ones.
fn flatten(
    alloc: Global,
    store: &mut Store,
    is_and: bool,
    ids: &[TermId],
) -> Result<TermId, AllocError>
    requires formulas { All (HasSort Bool store.old) ids.now }
    ensures shows { IfOk result (λ r. Shows store.new r (junction is_and (all_leaves is_and (trees_at store.old ids.now)))) }
    ensures extends { Extends store.old store.new }
{
    let under = leaves(alloc, store, is_and, ids)?;
    canonical_junction(alloc, store, is_and, under.as_slice())
}

/// The formulas under nested ones, from left to right.
fn leaves(
    alloc: Global,
    store: &Store,
    is_and: bool,
    ids: &[TermId],
) -> Result<Vec<TermId>, AllocError>
    requires formulas { All (HasSort Bool store.now) ids.now }
    ensures leaves { IfOk result (λ v. trees_at store.now v.items ≡ all_leaves is_and (trees_at store.now ids.now)) }
    ensures formulas { IfOk result (λ v. All (HasSort Bool store.now) v.items) }
{
    let mut todo = Vec::new(alloc);
    todo.extend_from_slice(ids)?;
    let mut found = Vec::new(alloc);
    while let Some(id) = todo.pop() {
        take_leaf(store, is_and, id, &mut todo, &mut found)?;
    }
    found.reverse();
    Ok(found)
}

/// Puts a formula to those found, last first, or its parts to those left to do.
fn take_leaf(
    store: &Store,
    is_and: bool,
    id: TermId,
    todo: &mut Vec<TermId>,
    found: &mut Vec<TermId>,
) -> Result<(), AllocError>
    requires formula { HasSort Bool store.now id }
    ensures taken { OnOk result (IsTaken store.now is_and id todo.old.items found.old.items todo.new.items found.new.items) }
{
    match parts(store, is_and, id) {
        Some(ids) => {
            todo.extend_from_slice(ids)?;
            Ok(())
        }
        None => {
            found.push(id)?;
            Ok(())
        }
    }
}
