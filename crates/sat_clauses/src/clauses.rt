//! Reading formulas as clauses.
ghost use Rattle.std.specs.Prelude.{◌≡◌, ◌<◌, ◌+◌, IfOk, IfSome, All, Some, [], length};
ghost use Rattle.std.specs.Option.{option_map};
ghost use Rattle.qterm.specs.Store.{Has, tree_at, trees_at, trees_of};
ghost use Rattle.qterm.specs.Tree.{Var};
ghost use Rattle.tac_cert.specs.Clauses as clauses;
ghost use Rattle.sat_clauses.specs.Coding.{name_at, lit_with, shown_clause, AreBelow, HasNamesOf};
ghost use Rattle.sat_clauses.specs.Reading.{IsReading};

use crate::numbers::Numbers;
use qterm::{Name, Sort, Store, Term, TermId};
use rup::{Clause, Lit};
use std::alloc::{AllocError, Global};

/// What reading formulas as clauses comes to.
#[derive(Drop)]
pub enum ReadClauses {
    /// All are clauses: these, one by one.
    Clauses(Vec<Clause>),
    /// The formula of this number, from 1, is the first that is no clause.
    Other(u32),
}

/// The clauses that formulas are, over the numbers of their names, or the first formula that is none.
///
/// Want of memory stands for more formulas than 32 bits can number.
pub fn read_clauses(
    alloc: Global,
    store: &Store,
    numbers: &Numbers,
    formulas: &[TermId],
) -> Result<ReadClauses, AllocError>
    requires has { All (Has store.now) formulas.now }
    requires vars { All (Has store.now) numbers.now }
    requires names { All (λ id. HasNamesOf store.now numbers.now (tree_at store.now id)) formulas.now }
    ensures { IfOk result (IsReading (name_at store.now numbers.now) (length numbers.now) (trees_of store.now formulas.now)) }
{
    store.is_distinct();
    let mut found = Vec::with_capacity(alloc, formulas.len())?;
    let mut number = 0u32;
    for id in formulas {
        let next = next_number(number)?;
        number = next;
        let read = clause_of(alloc, store, numbers, *id)?;
        match read {
            Some(clause) => found.push(clause)?,
            None => return Ok(ReadClauses::Other(number)),
        }
    }
    Ok(ReadClauses::Clauses(found))
}

/// The next number, where 32 bits hold it.
fn next_number(number: u32) -> Result<u32, AllocError>
    ensures { IfOk result (λ next. next ≡ number + 1) }
{
    match number.checked_add(1) {
        Some(next) => Ok(next),
        None => Err(AllocError),
    }
}

/// The clause that a term is, or nothing where it is none.
fn clause_of(
    alloc: Global,
    store: &Store,
    numbers: &Numbers,
    id: TermId,
) -> Result<Option<Clause>, AllocError>
    requires has { Has store.now id }
    requires vars { All (Has store.now) numbers.now }
    requires names { HasNamesOf store.now numbers.now (tree_at store.now id) }
    ensures lits { IfOk result (λ o. shown_clause (name_at store.now numbers.now) o ≡ clauses.lits_of (tree_at store.now id)) }
    ensures below { IfOk result (λ o. IfSome o (AreBelow (length numbers.now))) }
{
    match store.view(id) {
        Term::False => Ok(Some(Clause::from_vec(Vec::new(alloc)))),
        Term::Or(all) => lits_in(alloc, store, numbers, all.as_slice()),
        _ => single(alloc, store, numbers, id),
    }
}

/// The literals that terms are, or nothing where one is none.
fn lits_in(
    alloc: Global,
    store: &Store,
    numbers: &Numbers,
    ids: &[TermId],
) -> Result<Option<Clause>, AllocError>
    requires has { All (Has store.now) ids.now }
    requires vars { All (Has store.now) numbers.now }
    requires names { All (λ id. HasNamesOf store.now numbers.now (tree_at store.now id)) ids.now }
    ensures lits { IfOk result (λ o. shown_clause (name_at store.now numbers.now) o ≡ clauses.lits_in (trees_at store.now ids.now)) }
    ensures below { IfOk result (λ o. IfSome o (AreBelow (length numbers.now))) }
{
    let mut lits = Vec::with_capacity(alloc, ids.len())?;
    for id in ids {
        match lit_of(store, numbers, *id) {
            Some(l) => lits.push(l)?,
            None => return Ok(None),
        }
    }
    Ok(Some(Clause::from_vec(lits)))
}

/// The literal that a term is, alone.
fn single(
    alloc: Global,
    store: &Store,
    numbers: &Numbers,
    id: TermId,
) -> Result<Option<Clause>, AllocError>
    requires has { Has store.now id }
    requires vars { All (Has store.now) numbers.now }
    requires names { HasNamesOf store.now numbers.now (tree_at store.now id) }
    ensures lits { IfOk result (λ o. shown_clause (name_at store.now numbers.now) o ≡ clauses.put_lit (clauses.lit_of (tree_at store.now id)) (Some [])) }
    ensures below { IfOk result (λ o. IfSome o (AreBelow (length numbers.now))) }
{
    match lit_of(store, numbers, id) {
        None => Ok(None),
        Some(l) => {
            let mut lits = Vec::new(alloc);
            lits.push(l)?;
            Ok(Some(Clause::from_vec(lits)))
        }
    }
}

/// The literal that a term is.
fn lit_of(store: &Store, numbers: &Numbers, id: TermId) -> Option<Lit>
    requires has { Has store.now id }
    requires vars { All (Has store.now) numbers.now }
    requires names { HasNamesOf store.now numbers.now (tree_at store.now id) }
    ensures lit { option_map (lit_with (name_at store.now numbers.now)) result ≡ clauses.lit_of (tree_at store.now id) }
    ensures below { IfSome result (λ l. l.var < length numbers.now) }
{
    match store.view(id) {
        Term::Var(name) => name_lit(store, numbers, id, name, true),
        Term::Not(inner) => negated_lit(store, numbers, *inner),
        _ => None,
    }
}

/// The literal that is the negation of a term.
fn negated_lit(store: &Store, numbers: &Numbers, id: TermId) -> Option<Lit>
    requires has { Has store.now id }
    requires vars { All (Has store.now) numbers.now }
    requires names { HasNamesOf store.now numbers.now (tree_at store.now id) }
    ensures lit { option_map (lit_with (name_at store.now numbers.now)) result ≡ clauses.negated_lit (tree_at store.now id) }
    ensures below { IfSome result (λ l. l.var < length numbers.now) }
{
    match store.view(id) {
        Term::Var(name) => name_lit(store, numbers, id, name, false),
        _ => None,
    }
}

/// The literal of the name that a term is, where it is a formula.
fn name_lit(
    store: &Store,
    numbers: &Numbers,
    id: TermId,
    name: &Name,
    positive: bool,
) -> Option<Lit>
    requires has { Has store.now id }
    requires vars { All (Has store.now) numbers.now }
    requires is { tree_at store.now id ≡ Var name.now }
    requires names { HasNamesOf store.now numbers.now (tree_at store.now id) }
    ensures lit { option_map (lit_with (name_at store.now numbers.now)) result ≡ clauses.name_lit name.now positive }
    ensures below { IfSome result (λ l. l.var < length numbers.now) }
{
    store.is_distinct();
    match name.sort() {
        Sort::Int => None,
        Sort::Bool => {
            let number = numbers.number(id);
            Some(Lit {
                var: number,
                positive,
            })
        }
    }
}
