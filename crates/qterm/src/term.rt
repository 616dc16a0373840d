//! Terms whose children are ids.
ghost use Rattle.std.specs.Prelude.{◌≡◌, ◌<◌, ◌↔◌, IsTrue, nat_eq, length};
ghost use Rattle.std.proofs.Common.{rules};
ghost use Rattle.std.specs.Cmp.Rules.{hashing};
ghost use Rattle.std.specs.Hash as fed;
ghost use Rattle.std.specs.Cmp.Lexicographic.{pointwise, nat_list_eq_equiv};
ghost use Rattle.std.specs.Cmp.{partial_equiv_from_equiv};

use crate::name::Name;
use std::alloc::AllocError;
use std::hash::{Hash, Hasher};
use std::marker::Model;

/// How many distinct subterms a goal, and the assertions in force, may have at most.
pub const SUBTERMS: usize = 1_048_576;

/// The number of a term in a store. It means a term only together with that store, or one that has the same trees.
#[derive(Clone, Copy, Debug, PartialEq, Eq, Hash)]
pub struct TermId {
    number: u32,
}

impl Model for TermId {
    ghost use Rattle.std.specs.Prelude.{ℕ};

    ghost Value = { ℕ };

    ghost view = { λ t. t.number };

    ghost inverse = { λ n. record { number = n } };
}

impl TermId {
    /// The id of this number.
    pub(crate) fn new(number: u32) -> TermId
        ensures { result ≡ number }
    {
        TermId { number }
    }

    /// Whether it is the id of one of the first `count` terms.
    pub fn is_below(self, count: usize) -> bool
        ensures { IsTrue result ↔ (self < count) }
    {
        (self.number as usize) < count
    }

    /// The number of the id, which is the place of its tree in the list that contracts see.
    pub fn index(self) -> usize
        ensures { result ≡ self }
    {
        self.number as usize
    }
}

/// A list of ids, which contracts see as one.
#[derive(Debug, Drop)]
pub struct TermIds {
    ids: Vec<TermId>,
}

impl Model for TermIds {
    ghost use Rattle.std.specs.Prelude.{List, ℕ};

    ghost Value = { List ℕ };

    ghost view = { λ t. t.ids.items };
}

impl TermIds {
    /// The list with these ids. It takes no memory.
    pub fn from_vec(ids: Vec<TermId>) -> TermIds
        ensures { result ≡ ids.items }
    {
        TermIds { ids }
    }

    /// The ids as a vector. It takes no memory.
    pub fn into_vec(self) -> Vec<TermId>
        ensures { result.items ≡ self }
    {
        self.ids
    }

    /// The ids in order.
    pub fn as_slice(&self) -> &[TermId]
        ensures { result.now ≡ self.now }
    {
        self.ids.as_slice()
    }

    /// How many ids there are.
    pub fn len(&self) -> usize
        ensures { result ≡ length self.now }
    {
        self.ids.len()
    }

    /// Whether there is no id.
    pub fn is_empty(&self) -> bool
        ensures { IsTrue result ↔ (length self.now ≡ 0) }
    {
        self.ids.is_empty()
    }
}

impl PartialEq for TermIds {
    ghost eq = { pointwise nat_eq };

    ghost laws = { partial_equiv_from_equiv nat_list_eq_equiv };

    fn eq(&self, other: &TermIds) -> bool {
        self.ids.as_slice() == other.ids.as_slice()
    }
}

impl Clone for TermIds {
    ghost is_clone = { λ t c. c ≡ t };

    fn clone(&self) -> Result<TermIds, AllocError> {
        Ok(TermIds {
            ids: self.ids.clone()?,
        })
    }
}

impl Eq for TermIds {
    ghost laws = { nat_list_eq_equiv };
}

impl Hash for TermIds {
    ghost hash_input = { fed.slice fed.u32 };

    ghost respects_eq = { Prim.search (hashing, rules) };

    fn hash<H: Hasher>(&self, state: &mut H) {
        self.ids.as_slice().hash(state);
    }
}

/// A term: a constant, a name, or an operator over children that are terms of one store.
#[derive(Debug, Clone, PartialEq, Eq, Hash, Drop)]
pub enum Term {
    /// The formula that is true.
    True,
    /// The formula that is false.
    False,
    /// The value of a name, of the name's sort.
    Var(Name),
    /// An integer.
    Num(i128),
    /// The sum of Int terms, which is 0 where there are none.
    Sum(TermIds),
    /// The product of an integer and an Int term.
    Scale(i128, TermId),
    /// The first Int term is at most the second.
    Le(TermId, TermId),
    /// The two Int terms are equal.
    Eq(TermId, TermId),
    /// The two formulas are both true or both false.
    Iff(TermId, TermId),
    /// The formula is false.
    Not(TermId),
    /// All of the formulas are true, which holds where there are none.
    And(TermIds),
    /// One of the formulas is true, which doesn't hold where there are none.
    Or(TermIds),
    /// The second term where the formula that comes first is true, and else the third one, which has the same sort.
    Ite(TermId, TermId, TermId),
}
