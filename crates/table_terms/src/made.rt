//! Names and terms for the tables.
ghost use Rattle.std.specs.Prelude.{◌≡◌, ◌↔◌, IsTrue, IfOk, All};
ghost use Rattle.qterm.specs.Store.{Has, Extends};

use qterm::{Name, Sort, Store, Term, TermId, TermIds};
use std::alloc::{AllocError, Global};

/// The name with this text, if names may have it.
pub fn named(alloc: Global, text: &[u8], sort: Sort) -> Result<Name, AllocError>
    ensures { IfOk result (λ name. name.sort ≡ sort) }
{
    if Name::allows(text) {
        Name::new(alloc, text, sort)
    } else {
        Err(AllocError)
    }
}

/// The id of a term that fits.
pub fn put(store: &mut Store, term: Term) -> Result<TermId, AllocError>
    ensures { Extends store.old store.new }
{
    if store.fits(&term) {
        store.intern(term)
    } else {
        Err(AllocError)
    }
}

/// The id of the name with this text.
pub fn put_name(
    alloc: Global,
    store: &mut Store,
    text: &[u8],
    sort: Sort,
) -> Result<TermId, AllocError> {
    let name = named(alloc, text, sort)?;
    put(store, Term::Var(name))
}

/// A term without a list or a name.
#[derive(Clone, Copy)]
pub enum Plain {
    True,
    False,
    Num(i128),
    Scale(i128, TermId),
    Le(TermId, TermId),
    Eq(TermId, TermId),
    Iff(TermId, TermId),
    Not(TermId),
    Ite(TermId, TermId, TermId),
}

impl Plain {
    /// The term.
    pub fn term(self) -> Term {
        match self {
            Plain::True => Term::True,
            Plain::False => Term::False,
            Plain::Num(number) => Term::Num(number),
            Plain::Scale(number, of) => Term::Scale(number, of),
            Plain::Le(left, right) => Term::Le(left, right),
            Plain::Eq(left, right) => Term::Eq(left, right),
            Plain::Iff(left, right) => Term::Iff(left, right),
            Plain::Not(of) => Term::Not(of),
            Plain::Ite(condition, yes, no) => Term::Ite(condition, yes, no),
        }
    }
}

/// A list of ids.
pub fn list(alloc: Global, ids: &[TermId]) -> Result<TermIds, AllocError> {
    Ok(TermIds::from_vec(Vec::from_slice(alloc, ids)?))
}

/// The id of a sum.
pub fn put_sum(alloc: Global, store: &mut Store, ids: &[TermId]) -> Result<TermId, AllocError> {
    let all = list(alloc, ids)?;
    put(store, Term::Sum(all))
}

/// The id of a conjunction.
pub fn put_and(alloc: Global, store: &mut Store, ids: &[TermId]) -> Result<TermId, AllocError> {
    let all = list(alloc, ids)?;
    put(store, Term::And(all))
}

/// The id of a disjunction.
pub fn put_or(alloc: Global, store: &mut Store, ids: &[TermId]) -> Result<TermId, AllocError> {
    let all = list(alloc, ids)?;
    put(store, Term::Or(all))
}

/// Whether all of the ids are ones of the store.
pub fn has_all(store: &Store, ids: &[TermId]) -> bool
    ensures { IsTrue result ↔ All (Has store.now) ids.now }
{
    ids.iter().all(|id| store.has(*id))
}
