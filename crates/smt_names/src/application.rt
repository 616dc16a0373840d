//! Atoms, and operators over arguments, as terms.
ghost use Rattle.std.specs.Prelude.{◌≡◌, All, IfOk};
ghost use Rattle.qterm.specs.Store.{Has, Extends, trees_of};
ghost use Rattle.strat_text.specs.Form.{forms_of};
ghost use Rattle.smt_theory.specs.Plain as theory;
ghost use Rattle.smt_theory.specs.Sorts.{Suit};
ghost use Rattle.smt_names.specs.Given.{IsIn, Answers, scopes_in, seen};
ghost use Rattle.smt_names.specs.Reading.{State as States};
ghost use Rattle.smt_names.specs.Applied as spec;
ghost use Rattle.smt_names.specs.Atoms as atoms;
ghost use Rattle.smt_names.specs.Text as text;

use crate::form::{bare, may_be_terms, number, place};
use crate::naming::value;
use crate::state::State;
use qterm::{Store, Term, TermId};
use sexp_read::{AtomKind, Sexp};
use smt_theory::{Operator, is_linear, plain, takes, wrong_sort};
use smt_words::{ReadError, What, refused};
use std::alloc::Global;

/// An atom as a term; it stands itself at `place`, in the list at `at`.
pub fn atom(
    kind: AtomKind,
    text: &[u8],
    place: usize,
    at: usize,
    state: &State,
    store: &mut Store,
) -> Result<TermId, ReadError>
    requires there { IsIn store.old state.now }
    ensures read { Answers store.new (seen store.old state.now) result (atoms.read_atom (scopes_in store.old state.now.scopes) at kind text.now place) }
    ensures has { IfOk result (Has store.new) }
    ensures extends { Extends store.old store.new }
{
    match kind {
        AtomKind::Symbol => named(text, place, state, store),
        AtomKind::Quoted => named(bare(text), place, state, store),
        AtomKind::Numeral => numeral(text, place, store),
        _ => Err(refused(What::BadShape, at)),
    }
}

/// A name as a term.
fn named(name: &[u8], place: usize, state: &State, store: &mut Store) -> Result<TermId, ReadError>
    requires there { IsIn store.old state.now }
    ensures read { Answers store.new (seen store.old state.now) result (atoms.read_name (scopes_in store.old state.now.scopes) place name.now) }
    ensures has { IfOk result (Has store.new) }
    ensures extends { Extends store.old store.new }
{
    match value(state, name, store)? {
        Some(id) => Ok(id),
        None => Err(refused(What::UnknownSymbol, place)),
    }
}

/// A numeral as a term.
fn numeral(digits: &[u8], place: usize, store: &mut Store) -> Result<TermId, ReadError>
    ensures read { (s : States) → Answers store.new s result (atoms.numbered place (text.number_in digits.now)) }
    ensures has { IfOk result (Has store.new) }
    ensures extends { Extends store.old store.new }
{
    match number(digits) {
        Some(number) => {
            let id = store.intern(Term::Num(number))?;
            Ok(id)
        }
        None => Err(refused(What::WideNumeral, place)),
    }
}

/// An operator over the terms that its arguments are, as a term: first the kind and number of the arguments, then their
/// sorts, whether a product is linear, and the width of numbers.
pub fn apply(
    alloc: Global,
    bytes: &[u8],
    operator: Operator,
    args: &[Sexp],
    at: usize,
    ids: &[TermId],
    store: &mut Store,
) -> Result<TermId, ReadError>
    requires has { All (Has store.old) ids.now }
    ensures read { (s : States) → Answers store.new s result (spec.applied at operator (forms_of bytes.now args.now) (trees_of store.old ids.now)) }
    ensures has { IfOk result (Has store.new) }
    ensures extends { Extends store.old store.new }
{
    if !fit(bytes, operator, args) {
        return Err(refused(What::BadShape, at));
    }
    if let Some(wrong) = wrong_sort(store, operator, ids) {
        return Err(refused(What::BadSort, place_at(bytes, args, wrong)));
    }
    if !is_allowed(store, operator, ids) {
        return Err(refused(What::NotLinear, at));
    }
    narrow(alloc, operator, at, ids, store)
}

/// Whether the arguments may be terms, and are as many as the operator takes.
#[tactic(auto, using(crate::proofs::Forms::count_forms))]
fn fit(bytes: &[u8], operator: Operator, args: &[Sexp]) -> bool
    ensures { result ≡ spec.fit operator (forms_of bytes.now args.now) }
{
    may_be_terms(bytes, args) && takes(operator, args.len())
}

/// The plain term of an operator, where no number passes 128 bits.
fn narrow(
    alloc: Global,
    operator: Operator,
    at: usize,
    ids: &[TermId],
    store: &mut Store,
) -> Result<TermId, ReadError>
    requires suit { Suit operator store.old ids.now }
    ensures read { (s : States) → Answers store.new s result (spec.narrow at (theory.plain_of operator (trees_of store.old ids.now))) }
    ensures has { IfOk result (Has store.new) }
    ensures extends { Extends store.old store.new }
{
    match plain(alloc, store, operator, ids)? {
        Some(id) => Ok(id),
        None => Err(refused(What::WideNumeral, at)),
    }
}

/// Whether a product is linear, if it is one.
fn is_allowed(store: &Store, operator: Operator, ids: &[TermId]) -> bool
    requires has { All (Has store.now) ids.now }
    ensures { result ≡ spec.is_allowed operator (trees_of store.now ids.now) }
{
    match operator {
        Operator::Times => is_linear(store, ids),
        _ => true,
    }
}

/// The place of the item with this number, counted from 0.
pub(crate) fn place_at(bytes: &[u8], items: &[Sexp], at: usize) -> usize
    ensures { result ≡ text.place_at (forms_of bytes.now items.now) at }
{
    if at < items.len() {
        place(bytes, &items[at])
    } else {
        0
    }
}
