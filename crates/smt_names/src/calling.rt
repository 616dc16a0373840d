//! Defined functions over arguments, as terms.
ghost use Rattle.std.specs.Prelude.{◌≡◌, All, IfOk, IfNone, MatchResult, Ok, Some};
ghost use Rattle.qterm.specs.Store.{Has, Extends, tree_at, trees_of};
ghost use Rattle.strat_text.specs.Form.{forms_of};
ghost use Rattle.smt_expand.specs.Expanded.{HaveTheirSorts, expanded, put};
ghost use Rattle.smt_names.specs.Called as spec;
ghost use Rattle.smt_names.specs.Given.{IsIn, Gives, Goes, Refuses, seen};
ghost use Rattle.smt_names.specs.Table.{AreThere, IsThere, meaning_in, meaning_of, symbols_in};

use crate::application::place_at;
use crate::form::may_be_terms;
use crate::meaning::Meaning;
use crate::state::State;
use crate::table::Table;
use qterm::{Name, Store, TermId};
use sexp_read::Sexp;
use smt_expand::expand;
use smt_theory::same_sort;
use smt_words::{ReadError, What, refused};
use std::alloc::Global;

/// The function of a name over the terms that its arguments are, as a term: first the kind and number of the arguments, then their
/// sorts, and the width of numbers. The arguments count from here on.
pub fn call(
    alloc: Global,
    bytes: &[u8],
    name: &[u8],
    args: &[Sexp],
    at: usize,
    ids: &[TermId],
    state: &mut State,
    store: &mut Store,
) -> Result<TermId, ReadError>
    requires there { IsIn store.old state.old }
    requires has { All (Has store.old) ids.now }
    ensures read { Gives (tree_at store.new) store.new state.new result (spec.call name.now at (forms_of bytes.now args.now) (trees_of store.old ids.now) (seen store.old state.old)) }
    ensures has { IfOk result (Has store.new) }
    ensures scopes { state.new.scopes ≡ state.old.scopes }
    ensures goes { Goes store.old state.old store.new state.new }
{
    let found = called(alloc, bytes, name, args, at, ids, &state.symbols, store)?;
    state.bound.extend(ids)?;
    Ok(found)
}

/// The symbol of a name over the terms that its arguments are.
fn called(
    alloc: Global,
    bytes: &[u8],
    name: &[u8],
    args: &[Sexp],
    at: usize,
    ids: &[TermId],
    symbols: &Table,
    store: &mut Store,
) -> Result<TermId, ReadError>
    requires there { AreThere store.old symbols.now }
    requires has { All (Has store.old) ids.now }
    ensures read { MatchResult result (λ id. spec.called at (forms_of bytes.now args.now) (trees_of store.old ids.now) (meaning_of (symbols_in store.old symbols.now) name.now) ≡ Ok (tree_at store.new id)) (λ e. Refuses e (spec.called at (forms_of bytes.now args.now) (trees_of store.old ids.now) (meaning_of (symbols_in store.old symbols.now) name.now))) }
    ensures has { IfOk result (Has store.new) }
    ensures extends { Extends store.old store.new }
{
    match symbols.find(name) {
        Some(meaning) => meant_over(alloc, bytes, meaning, args, at, ids, store),
        None => Err(refused(What::BadShape, at)),
    }
}

/// A symbol of this meaning over the terms that its arguments are.
fn meant_over(
    alloc: Global,
    bytes: &[u8],
    meaning: &Meaning,
    args: &[Sexp],
    at: usize,
    ids: &[TermId],
    store: &mut Store,
) -> Result<TermId, ReadError>
    requires there { IsThere store.old meaning.now }
    requires has { All (Has store.old) ids.now }
    ensures read { MatchResult result (λ id. spec.called at (forms_of bytes.now args.now) (trees_of store.old ids.now) (Some (meaning_in store.old meaning.now)) ≡ Ok (tree_at store.new id)) (λ e. Refuses e (spec.called at (forms_of bytes.now args.now) (trees_of store.old ids.now) (Some (meaning_in store.old meaning.now)))) }
    ensures has { IfOk result (Has store.new) }
    ensures extends { Extends store.old store.new }
{
    match meaning {
        Meaning::Declared(_, _) | Meaning::Defined(_) => Err(refused(What::BadShape, at)),
        Meaning::Function(params, body) => {
            let body = *body;
            over_args(alloc, bytes, params.as_slice(), body, args, at, ids, store)
        }
    }
}

/// A body over the terms that the arguments of its parameters are.
fn over_args(
    alloc: Global,
    bytes: &[u8],
    params: &[Name],
    body: TermId,
    args: &[Sexp],
    at: usize,
    ids: &[TermId],
    store: &mut Store,
) -> Result<TermId, ReadError>
    requires body { Has store.old body }
    requires has { All (Has store.old) ids.now }
    ensures read { MatchResult result (λ id. spec.over_args at (forms_of bytes.now args.now) (trees_of store.old ids.now) params.now (tree_at store.old body) ≡ Ok (tree_at store.new id)) (λ e. Refuses e (spec.over_args at (forms_of bytes.now args.now) (trees_of store.old ids.now) params.now (tree_at store.old body))) }
    ensures has { IfOk result (Has store.new) }
    ensures extends { Extends store.old store.new }
{
    if !fill(bytes, params, args) {
        return Err(refused(What::BadShape, at));
    }
    if let Some(wrong) = unlike(store, params, ids) {
        return Err(refused(What::BadSort, place_at(bytes, args, wrong)));
    }
    in_width(alloc, params, body, at, ids, store)
}

/// Whether the arguments may be terms, and are as many as the parameters.
#[tactic(auto, using(crate::proofs::Forms::count_forms))]
fn fill(bytes: &[u8], params: &[Name], args: &[Sexp]) -> bool
    ensures { result ≡ spec.fill params.now (forms_of bytes.now args.now) }
{
    may_be_terms(bytes, args) && args.len() == params.len()
}

/// The place of the first argument of another sort than its parameter.
#[tactic(auto, unfolding(crate::specs::Called::unlike))]
fn unlike(store: &Store, params: &[Name], ids: &[TermId]) -> Option<usize>
    requires has { All (Has store.now) ids.now }
    ensures place { result ≡ spec.unlike 0 params.now (trees_of store.now ids.now) }
    ensures sorts { IfNone result (HaveTheirSorts params.now (trees_of store.now ids.now)) }
{
    let mut at = 0;
    while at < params.len() && at < ids.len() {
        if !same_sort(store.sort(ids[at]), params[at].sort()) {
            return Some(at);
        }
        at += 1;
    }
    None
}

/// The body over arguments of the parameters' sorts, where no number passes 128 bits.
fn in_width(
    alloc: Global,
    params: &[Name],
    body: TermId,
    at: usize,
    ids: &[TermId],
    store: &mut Store,
) -> Result<TermId, ReadError>
    requires body { Has store.old body }
    requires has { All (Has store.old) ids.now }
    requires sorts { HaveTheirSorts params.now (trees_of store.old ids.now) }
    ensures read { MatchResult result (λ id. spec.in_width at (expanded (put params.now (trees_of store.old ids.now)) (tree_at store.old body)) ≡ Ok (tree_at store.new id)) (λ e. Refuses e (spec.in_width at (expanded (put params.now (trees_of store.old ids.now)) (tree_at store.old body)))) }
    ensures has { IfOk result (Has store.new) }
    ensures extends { Extends store.old store.new }
{
    match expand(alloc, store, params, ids, body)? {
        Some(id) => Ok(id),
        None => Err(refused(What::WideNumeral, at)),
    }
}
