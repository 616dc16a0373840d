//! Certificates of many steps, each of which is accepted.
ghost use Rattle.std.specs.Prelude.{◌↔◌, All, IsTrue};
ghost use Rattle.qterm.specs.declared.name.Sort.TheVariants.{Bool};
ghost use Rattle.qterm.specs.Store.{HasSort};

use cert_check::{Verdict, check};
use qterm::{Name, Sort, Store, Term, TermId, TermIds};
use sqlite_items::Items;
use std::alloc::{AllocError, Global};
use tac_cert::{Cert, Close, Proof, Step, cert_fits};

/// What the steps of a certificate are.
#[derive(Clone, Copy)]
pub enum Kind {
    /// `rup` with three hints.
    Rup,
    /// `rw` of the formula of the step before.
    Rw,
}

/// The kind of a word.
pub fn kind_of(word: &str) -> Option<Kind> {
    match word {
        "rup" => Some(Kind::Rup),
        "rw" => Some(Kind::Rw),
        _ => None,
    }
}

/// A certificate, with the store of its terms and the assertions.
#[derive(Drop)]
pub struct Made {
    store: Store,
    asserts: Vec<TermId>,
    cert: Cert,
}

impl Made {
    /// What the check says of it.
    pub fn verdict(&mut self, alloc: Global) -> Result<Verdict, AllocError> {
        let asserts = self.asserts.as_slice();
        if cert_fits(&self.store, &self.cert) && are_formulas(&self.store, asserts) {
            check(alloc, &mut self.store, asserts, &self.cert)
        } else {
            Err(AllocError)
        }
    }
}

/// Whether these are formulas of the store.
fn are_formulas(store: &Store, ids: &[TermId]) -> bool
    ensures { IsTrue result ↔ All (HasSort Bool store.now) ids.now }
{
    ids.iter()
        .all(|id| store.has(*id) && store.sort(*id) == Sort::Bool)
}

/// A certificate with so many steps of a kind.
pub fn make(alloc: Global, kind: Kind, count: u32) -> Result<Made, AllocError> {
    match kind {
        Kind::Rup => propagations(alloc, count),
        Kind::Rw => rewritings(alloc, count),
    }
}

/// The certificate of these, which ends at an item.
fn make_of(
    store: Store,
    asserts: Vec<TermId>,
    steps: Items<Step>,
    last: u32,
) -> Result<Made, AllocError> {
    let count = count_of(asserts.as_slice())?;
    let close = Close::False(last);
    Ok(Made {
        store,
        asserts,
        cert: Cert::new(1, count, Proof { steps, close }),
    })
}

/// How many assertions there are.
fn count_of(asserts: &[TermId]) -> Result<u32, AllocError> {
    u32::try_from(asserts.len()).ok().ok_or(AllocError)
}

/// The id of a term, if its children are terms of the store.
fn put(store: &mut Store, term: Term) -> Result<TermId, AllocError> {
    if store.fits(&term) {
        store.intern(term)
    } else {
        Err(AllocError)
    }
}

/// The id of the name of a letter and a number.
fn name(
    alloc: Global,
    store: &mut Store,
    letter: &str,
    number: u32,
    sort: Sort,
) -> Result<TermId, AllocError> {
    let text = format!(in alloc; "{letter}{number}")?;
    if Name::allows(text.as_bytes()) {
        let name = Name::new(alloc, text.as_bytes(), sort)?;
        put(store, Term::Var(name))
    } else {
        Err(AllocError)
    }
}

/// The id of a clause.
fn clause(alloc: Global, store: &mut Store, lits: &[TermId]) -> Result<TermId, AllocError> {
    let lits = TermIds::from_vec(Vec::from_slice(alloc, lits)?);
    put(store, Term::Or(lits))
}

/// At most so many names `p` go round in a ring.
const RING: u32 = 50_000;

/// With names `p` in a ring: a `p` is true, and each leads to its `a`, and with it to the next `p`. The steps are the `p` in turn;
/// the last assertion is that the first `p` is false.
fn propagations(alloc: Global, count: u32) -> Result<Made, AllocError> {
    let mut store = Store::new(alloc);
    let ring = count.clamp(2, RING);
    let mut plain = Vec::new(alloc);
    for i in 0..ring {
        plain.push(name(alloc, &mut store, "p", i, Sort::Bool)?)?;
    }
    let asserts = ring_of(alloc, &mut store, plain.as_slice())?;
    let given = count_of(asserts.as_slice())?;
    let mut steps = Items::new(alloc);
    let mut at: u32 = 0;
    let mut item: u32 = 1;
    for k in 0..count {
        let first = at.saturating_mul(2).saturating_add(2);
        let hints = Items::from_slice(alloc, &[item, first, first.saturating_add(1)])?;
        at = if at.saturating_add(1) < ring {
            at.saturating_add(1)
        } else {
            0
        };
        let clause = *plain.get(at as usize).ok_or(AllocError)?;
        steps.push(Step::Rup { clause, hints })?;
        item = given.saturating_add(k).saturating_add(1);
    }
    let hints = Items::from_slice(alloc, &[1, given])?;
    let clause = put(&mut store, Term::False)?;
    steps.push(Step::Rup { clause, hints })?;
    let last = given.saturating_add(count).saturating_add(1);
    make_of(store, asserts, steps, last)
}

/// The assertions on the names `p` of a ring: the first, two clauses for each, and the negation of the first.
fn ring_of(alloc: Global, store: &mut Store, plain: &[TermId]) -> Result<Vec<TermId>, AllocError> {
    let mut asserts = Vec::new(alloc);
    let first = *plain.first().ok_or(AllocError)?;
    asserts.push(first)?;
    let mut i: u32 = 0;
    for p in plain {
        let a = name(alloc, store, "a", i, Sort::Bool)?;
        i = i.saturating_add(1);
        let next = *plain.get(i as usize).unwrap_or(&first);
        let not_p = put(store, Term::Not(*p))?;
        let not_a = put(store, Term::Not(a))?;
        asserts.push(clause(alloc, store, &[not_p, a])?)?;
        asserts.push(clause(alloc, store, &[not_p, not_a, next])?)?;
    }
    asserts.push(put(store, Term::Not(first))?)?;
    Ok(asserts)
}

/// The formulas `x + k <= k` for k from 0, each by the one before; and `false` beside the first.
fn rewritings(alloc: Global, count: u32) -> Result<Made, AllocError> {
    let mut store = Store::new(alloc);
    let x = name(alloc, &mut store, "x", 0, Sort::Int)?;
    let mut asserts = Vec::new(alloc);
    asserts.push(at_most(alloc, &mut store, x, 0)?)?;
    asserts.push(put(&mut store, Term::False)?)?;
    let mut steps = Items::new(alloc);
    let mut item: u32 = 1;
    for k in 0..count {
        let formula = at_most(alloc, &mut store, x, k.saturating_add(1))?;
        steps.push(Step::Rw { item, formula })?;
        item = k.saturating_add(3);
    }
    make_of(store, asserts, steps, 2)
}

/// The formula `x + k <= k`.
fn at_most(alloc: Global, store: &mut Store, x: TermId, k: u32) -> Result<TermId, AllocError> {
    let number = put(store, Term::Num(i128::from(k)))?;
    let parts = TermIds::from_vec(Vec::from_slice(alloc, &[x, number])?);
    let sum = put(store, Term::Sum(parts))?;
    put(store, Term::Le(sum, number))
}
