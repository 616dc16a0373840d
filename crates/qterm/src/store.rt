//! The store of terms.
ghost use Rattle.std.specs.Prelude.{◌≡◌, [], ◌∷◌, ◌++◌, ◌<◌, ◌^◌, ℕ, length, ◌↔◌, IsTrue, IfOk, IfSome, IfNone, MatchOption, OnOk, OnErr, All};
ghost use Rattle.qterm.specs.Tree.{Tree, sort_of, IsLawful, HasNameTexts};
ghost use Rattle.qterm.specs.Store.{tree_at, grow, Has, HasSort, Fits, Shows, Extends, Adds, IsDistinct};
ghost use Rattle.qterm.specs.Kids.{ids};
ghost use Rattle.qterm.specs.Place.{IsAt, IsAbsent, IsPlaced, IsNamed, Stands};

use crate::name::Sort;
use crate::part::{Node, copied, find};
use crate::shared::Shared;
use crate::term::{Term, TermId, TermIds};
use indexmap::IndexSet;
use std::alloc::{AllocError, Global};
use std::marker::Model;

/// Terms that are shared and numbered: contracts see the list of their trees, in the order of their ids.
///
/// A store holds fewer than 2^32 terms, no tree twice, and only trees whose sorts are right. Its first terms may stand in
/// parts that other stores have too, and the others stand in a part of its own.
#[derive(Drop)]
pub struct Store {
    shared: Shared,
    own: IndexSet<Node>,
}

impl Model for Store {
    ghost use Rattle.std.specs.Prelude.{List, [], ◌++◌};
    ghost use Rattle.qterm.specs.Tree.{Tree};
    ghost use Rattle.qterm.specs.Code.{coded_tree};
    ghost use Rattle.std.specs.Coded.{coded_list};

    ghost Value = { List Tree };

    ghost coded = { coded_list coded_tree };

    ghost use Rattle.qterm.specs.Place.{grown, AreStored};

    ghost view = { λ s. grown [] (s.shared ++ s.own.keys) };

    ghost invariant = { λ s. AreStored (s.shared ++ s.own.keys) };
}

/// The most terms that a store holds.
const MOST: usize = 4_294_967_295;

impl Store {
    /// An empty store, which takes no memory.
    pub fn new(alloc: Global) -> Store
        ensures { result ≡ [] }
    {
        Store {
            shared: Shared::new(alloc),
            own: IndexSet::new(alloc),
        }
    }

    /// A store with the same trees under the same ids. What either interns later isn't seen by the other.
    ///
    /// From here on the two share their terms, so that the cost doesn't grow with their number. After want of memory this
    /// store shows what it showed before.
    pub fn layer(&mut self) -> Result<Store, AllocError>
        ensures same { self.new ≡ self.old }
        ensures layer { IfOk result (λ s. s ≡ self.old) }
    {
        self.shared.freeze(&mut self.own)?;
        let alloc = *self.own.allocator();
        Ok(Store {
            shared: self.shared.share()?,
            own: IndexSet::new(alloc),
        })
    }

    /// A store with the same trees under the same ids. What either interns later isn't seen by the other.
    ///
    /// The cost grows with the number of terms that this store had interned since its last layer was made.
    pub fn copy(&self) -> Result<Store, AllocError>
        ensures { IfOk result (λ s. s ≡ self.now) }
    {
        Ok(Store {
            shared: self.shared.share()?,
            own: copied(&self.own)?,
        })
    }

    /// How many terms there are. Their ids are the numbers below.
    #[tactic(auto, using(crate::proofs::Grown::length_grown))]
    pub fn size(&self) -> usize
        ensures size { result ≡ length self.now }
        ensures small { length self.now < 2 ^ 32 }
    {
        self.shared.len() + self.own.len()
    }

    /// Whether the id is one of this store.
    pub fn has(&self, id: TermId) -> bool
        ensures { IsTrue result ↔ Has self.now id }
    {
        id.index() < self.size()
    }

    /// The node of an id.
    fn node(&self, id: TermId) -> &Node
        requires has { Has self.now id }
        ensures { Stands self.now id result.now }
    {
        let at = id.index();
        let before = self.shared.len();
        if at < before {
            self.shared.node(at)
        } else {
            &self.own.as_slice()[at - before]
        }
    }

    /// The term of an id. Its children are older terms of this store.
    pub fn view(&self, id: TermId) -> &Term
        requires has { Has self.now id }
        ensures tree { tree_at self.now id ≡ grow self.now result.now }
        ensures fits { Fits self.now result.now }
        ensures older { All (λ child. child < id) (ids result.now) }
        ensures lawful { IsLawful (tree_at self.now id) }
    {
        let _own = &self.own;
        &self.node(id).term
    }

    /// The sort of the term of an id.
    pub fn sort(&self, id: TermId) -> Sort
        requires has { Has self.now id }
        ensures { result ≡ sort_of (tree_at self.now id) }
    {
        self.node(id).sort
    }

    /// Two ids of a store mean two trees: comparing ids is comparing trees.
    pub fn is_distinct(&self)
        ensures { IsDistinct self.now }
    {
        let _own = &self.own;
    }

    /// The sorts of each tree of a store are right.
    pub fn is_lawful(&self)
        ensures { All IsLawful self.now }
    {
        let _own = &self.own;
    }

    /// The names in each tree of a store have texts that `Name::allows`.
    pub fn has_name_texts(&self)
        ensures { All HasNameTexts self.now }
    {
        let _own = &self.own;
    }

    /// Whether the id is one of this store, and its term has the sort.
    fn has_sort(&self, id: TermId, sort: Sort) -> bool
        ensures { IsTrue result ↔ HasSort sort self.now id }
    {
        self.has(id) && self.sort(id) == sort
    }

    /// Whether all ids are ones of this store, and their terms have the sort.
    fn all_have_sort(&self, ids: &TermIds, sort: Sort) -> bool
        ensures { IsTrue result ↔ All (HasSort sort self.now) ids.now }
    {
        for id in ids.as_slice() {
            if !self.has_sort(*id, sort) {
                return false;
            }
        }
        true
    }

    /// Whether the children of the term are terms of this store, and their sorts are right.
    pub fn fits(&self, term: &Term) -> bool
        ensures { IsTrue result ↔ Fits self.now term.now }
    {
        match term {
            Term::True | Term::False | Term::Var(_) | Term::Num(_) => true,
            Term::Sum(all) => self.all_have_sort(all, Sort::Int),
            Term::Scale(_, a) => self.has_sort(*a, Sort::Int),
            Term::Le(a, b) | Term::Eq(a, b) => self.has_sort(*a, Sort::Int)
                && self.has_sort(*b, Sort::Int),
            Term::Iff(a, b) => self.has_sort(*a, Sort::Bool) && self.has_sort(*b, Sort::Bool),
            Term::Not(a) => self.has_sort(*a, Sort::Bool),
            Term::And(all) | Term::Or(all) => self.all_have_sort(all, Sort::Bool),
            Term::Ite(condition, a, b) => self.has_sort(*condition, Sort::Bool)
                && self.has(*a)
                && self.has_sort(*b, self.sort(*a)),
        }
    }

    /// The sort of a term over terms of this store.
    fn sort_over(&self, term: &Term) -> Sort
        requires fits { Fits self.now term.now }
        ensures { result ≡ sort_of (grow self.now term.now) }
    {
        match term {
            Term::Num(_) | Term::Sum(_) | Term::Scale(_, _) => Sort::Int,
            Term::Var(name) => name.sort(),
            Term::Ite(_, a, _) => self.sort(*a),
            _ => Sort::Bool,
        }
    }

    /// The id of the term's tree, if the tree is there. The store stays as it is.
    pub fn find(&self, term: Term) -> Option<TermId>
        requires fits { Fits self.now term }
        ensures found { IfSome result (λ id. Shows self.now id (grow self.now term)) }
        ensures absent { IfNone result ((id : ℕ) → Shows self.now id (grow self.now term) → ⊥) }
    {
        let sort = self.sort_over(&term);
        match place_known(&self.shared, &self.own, &Node { term, sort }) {
            Some(at) => Some(TermId::new(at)),
            None => None,
        }
    }

    /// The id of the term's tree: the old one where the tree is there, and else a new one, which comes last.
    ///
    /// After want of memory the store shows what it showed before. A store that would come to hold 2^32 terms answers want
    /// of memory.
    pub fn intern(&mut self, term: Term) -> Result<TermId, AllocError>
        requires fits { Fits self.old term }
        ensures shows { IfOk result (λ id. Shows self.new id (grow self.old term)) }
        ensures adds { OnOk result (Adds self.old (grow self.old term) self.new) }
        ensures extends { Extends self.old self.new }
        ensures err { OnErr result (self.new ≡ self.old) }
    {
        let sort = self.sort_over(&term);
        is_named(&term);
        let at = place(&self.shared, &mut self.own, Node { term, sort })?;
        Ok(TermId::new(at))
    }
}

/// The place of a node in the shared parts and then the own one.
fn place_known(shared: &Shared, own: &IndexSet<Node>, node: &Node) -> Option<u32>
    requires small { length (shared.now ++ own.now.keys) < 2 ^ 32 }
    ensures { MatchOption result (IsAbsent (shared.now ++ own.now.keys) node.now) (λ at. IsAt (shared.now ++ own.now.keys) node.now at) }
{
    match shared.find(node) {
        Some(at) => Some(at as u32),
        None => match find(own, node) {
            Some(at) => Some((shared.len() + at) as u32),
            None => None,
        },
    }
}

/// A term that is a name has a text that `Name::allows`.
fn is_named(term: &Term)
    ensures { IsNamed term.now }
{
    if let Term::Var(name) = term {
        let _text = name.text();
    }
}

/// The place of a node, which goes last where it is new.
fn place(shared: &Shared, own: &mut IndexSet<Node>, node: Node) -> Result<u32, AllocError>
    requires small { length (shared.now ++ own.old.keys) < 2 ^ 32 }
    ensures ok { IfOk result (λ at. IsPlaced (shared.now ++ own.old.keys) node at (shared.now ++ own.new.keys)) }
    ensures err { OnErr result (own.new.keys ≡ own.old.keys) }
{
    match shared.find(&node) {
        Some(at) => Ok(at as u32),
        None => place_behind(shared, own, node),
    }
}

/// The place of a node that no shared part has.
fn place_behind(shared: &Shared, own: &mut IndexSet<Node>, node: Node) -> Result<u32, AllocError>
    requires small { length (shared.now ++ own.old.keys) < 2 ^ 32 }
    requires absent { IsAbsent shared.now node }
    ensures ok { IfOk result (λ at. IsPlaced (shared.now ++ own.old.keys) node at (shared.now ++ own.new.keys)) }
    ensures err { OnErr result (own.new.keys ≡ own.old.keys) }
{
    let before = shared.len();
    if before + own.len() >= MOST {
        return place_old(shared, own, &node);
    }
    let (at, _) = own.insert_full(node)?;
    Ok((before + at) as u32)
}

/// The place of a node that no shared part has, if it is there.
fn place_old(shared: &Shared, own: &IndexSet<Node>, node: &Node) -> Result<u32, AllocError>
    requires small { length (shared.now ++ own.now.keys) < 2 ^ 32 }
    ensures { IfOk result (λ at. IsPlaced (shared.now ++ own.now.keys) node.now at (shared.now ++ own.now.keys)) }
{
    match find(own, node) {
        Some(at) => Ok((shared.len() + at) as u32),
        None => Err(AllocError),
    }
}
