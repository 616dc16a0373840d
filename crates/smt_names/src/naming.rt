//! Names: what a symbol stands for, and which ones may be declared, defined or bound.
ghost use Rattle.std.specs.Prelude.{◌≡◌, IfOk, List, None, Ok, false, is_some, MatchResult, reverse};
ghost use Rattle.std.specs.Map.{lookup};
ghost use Rattle.std.specs.Str.{bytes_eq};
ghost use Rattle.qterm.specs.Tree.{Tree};
ghost use Rattle.qterm.specs.Store.{Extends};
ghost use Rattle.qterm.specs.Name.{IsNameText};
ghost use Rattle.strat_text.specs.Form.{form_of};
ghost use Rattle.smt_theory.specs.Operator as operators;
ghost use Rattle.smt_theory.specs.Plain.{IsPlain};
ghost use Rattle.smt_names.specs.Names as spec;
ghost use Rattle.smt_names.specs.Atoms as atoms;
ghost use Rattle.smt_names.specs.Given.{IsIn, Refuses, scopes_in};
ghost use Rattle.smt_names.specs.Table.{meaning_in, symbols_in};

use crate::form::{bare, is_name_text, name, place, same, text_at};
use crate::head::Head;
use crate::meaning::Meaning;
use crate::state::State;
use crate::table::Table;
use qterm::{Store, Term, TermId};
use sexp_read::{AtomKind, Sexp};
use smt_theory::{is_theory_name, operator_named, truth_named};
use smt_words::{ReadError, What, refused};
use std::alloc::AllocError;

/// The new name that an s-expression in the list at a place is.
pub fn new_name<'a>(
    bytes: &'a [u8],
    symbols: &Table,
    at: usize,
    sexp: &Sexp,
) -> Result<&'a [u8], ReadError>
    ensures name { (ts : List Tree) → MatchResult result (λ name. spec.new_name (symbols_in ts symbols.now) at (form_of bytes.now sexp.now) ≡ Ok name.now) (λ e. Refuses e (spec.new_name (symbols_in ts symbols.now) at (form_of bytes.now sexp.now))) }
    ensures allowed { IfOk result (λ name. IsNameText name.now) }
    ensures absent { IfOk result (λ name. lookup (bytes_eq name.now) symbols.now ≡ None) }
{
    match name(bytes, sexp) {
        None => Err(refused(What::BadShape, at)),
        Some(name) => {
            if !is_name_text(name) {
                return Err(refused(What::BadShape, at));
            }
            if is_taken(symbols, name) {
                return Err(refused(What::Redeclared, place(bytes, sexp)));
            }
            Ok(name)
        }
    }
}

/// Whether a name is in force, or one of the theories.
fn is_taken(symbols: &Table, name: &[u8]) -> bool
    ensures taken { (ts : List Tree) → result ≡ spec.is_taken (symbols_in ts symbols.now) name.now }
    ensures absent { result ≡ false → lookup (bytes_eq name.now) symbols.now ≡ None }
{
    is_theory_name(name) || symbols.has(name)
}

/// The name to bind that an s-expression in the list at a place is.
pub fn bound_name<'a>(
    bytes: &'a [u8],
    scope: &Table,
    at: usize,
    sexp: &Sexp,
) -> Result<&'a [u8], ReadError>
    ensures name { (ts : List Tree) → MatchResult result (λ name. spec.bound_name (symbols_in ts scope.now) at (form_of bytes.now sexp.now) ≡ Ok name.now) (λ e. Refuses e (spec.bound_name (symbols_in ts scope.now) at (form_of bytes.now sexp.now))) }
    ensures allowed { IfOk result (λ name. IsNameText name.now) }
    ensures absent { IfOk result (λ name. lookup (bytes_eq name.now) scope.now ≡ None) }
{
    match name(bytes, sexp) {
        None => Err(refused(What::BadShape, at)),
        Some(name) => {
            if !is_name_text(name) {
                return Err(refused(What::BadShape, at));
            }
            if scope.has(name) {
                return Err(refused(What::Redeclared, place(bytes, sexp)));
            }
            Ok(name)
        }
    }
}

/// The term that a text stands for in a table.
fn constant(table: &Table, name: &[u8]) -> Option<TermId>
    ensures { result ≡ spec.constant_id (lookup (bytes_eq name.now) table.now) }
{
    match table.find(name) {
        Some(meaning) => meant(meaning),
        None => None,
    }
}

/// The term that a meaning stands for, unless it is a function.
fn meant(meaning: &Meaning) -> Option<TermId>
    ensures { result ≡ spec.meant_id meaning.now }
{
    match meaning {
        Meaning::Declared(id, _) => Some(*id),
        Meaning::Defined(id) => Some(*id),
        Meaning::Function(_, _) => None,
    }
}

/// The term that a bound name stands for, in the innermost of the tables, the last, that binds it.
#[tactic(auto, unfolding(crate::specs::Names::local_id))]
pub(crate) fn local(tables: &[Table], name: &[u8]) -> Option<TermId>
    ensures { result ≡ spec.local_id (reverse tables.now) name.now }
{
    let mut at = tables.len();
    while at > 0 {
        at -= 1;
        if let Some(id) = constant(&tables[at], name) {
            return Some(id);
        }
    }
    None
}

/// The term that a name stands for.
pub fn value(state: &State, name: &[u8], store: &mut Store) -> Result<Option<TermId>, AllocError>
    requires there { IsIn store.old state.now }
    ensures value { IfOk result (IsPlain store.new (spec.value_of (scopes_in store.old state.now.scopes) (symbols_in store.old state.now.symbols) name.now)) }
    ensures extends { Extends store.old store.new }
{
    if let Some(id) = state.scopes.find(name) {
        return Ok(Some(id));
    }
    if let Some(id) = constant(&state.symbols, name) {
        return Ok(Some(id));
    }
    let found = truth(truth_named(name), store)?;
    Ok(found)
}

/// A truth value as a term.
fn truth(truth: Option<bool>, store: &mut Store) -> Result<Option<TermId>, AllocError>
    ensures value { IfOk result (IsPlain store.new (spec.truth_of truth)) }
    ensures extends { Extends store.old store.new }
{
    match truth {
        None => Ok(None),
        Some(true) => {
            let id = store.intern(Term::True)?;
            Ok(Some(id))
        }
        Some(false) => {
            let id = store.intern(Term::False)?;
            Ok(Some(id))
        }
    }
}

/// What the first item of a list is.
#[tactic(auto, unfolding(strat_text::specs::Form::form_of))]
pub fn head_of(bytes: &[u8], sexp: &Sexp, state: &State) -> Head
    ensures { (ts : List Tree) → result ≡ atoms.head_of (scopes_in ts state.now.scopes) (symbols_in ts state.now.symbols) (form_of bytes.now sexp.now) }
{
    match sexp {
        Sexp::Atom { kind, start, end } => head_atom(*kind, text_at(bytes, *start, *end), state),
        Sexp::List { .. } => Head::NoSymbol,
    }
}

/// An atom as a head.
fn head_atom(kind: AtomKind, text: &[u8], state: &State) -> Head
    ensures { (ts : List Tree) → result ≡ atoms.head_atom (scopes_in ts state.now.scopes) (symbols_in ts state.now.symbols) kind text.now }
{
    match kind {
        AtomKind::Symbol => head_word(text, state),
        AtomKind::Quoted => head_named(bare(text), state),
        _ => Head::NoSymbol,
    }
}

/// A simple symbol as a head.
fn head_word(text: &[u8], state: &State) -> Head
    ensures { (ts : List Tree) → result ≡ atoms.head_word (scopes_in ts state.now.scopes) (symbols_in ts state.now.symbols) text.now }
{
    if same(text, b"let") {
        Head::Let
    } else if same(text, b"!") {
        Head::Annotated
    } else {
        head_named(text, state)
    }
}

/// A name as a head.
fn head_named(name: &[u8], state: &State) -> Head
    ensures { (ts : List Tree) → result ≡ atoms.head_named (scopes_in ts state.now.scopes) (symbols_in ts state.now.symbols) name.now }
{
    if state.scopes.find(name).is_some() {
        return Head::Constant;
    }
    match state.symbols.find(name) {
        Some(meaning) => meant_head(meaning),
        None => theory_head(name),
    }
}

/// A symbol in force as a head: a function takes arguments, and a name that stands for a term none.
fn meant_head(meaning: &Meaning) -> Head
    ensures { (ts : List Tree) → result ≡ atoms.meant_head (meaning_in ts meaning.now) }
{
    match meaning {
        Meaning::Declared(_, _) | Meaning::Defined(_) => Head::Constant,
        Meaning::Function(_, _) => Head::Function,
    }
}

/// A name of the theories as a head.
fn theory_head(name: &[u8]) -> Head
    ensures { result ≡ atoms.theory_head (operators.operator_named name.now) (is_some (operators.truth_named name.now)) }
{
    match operator_named(name) {
        Some(operator) => Head::Operator(operator),
        None => {
            if truth_named(name).is_some() {
                Head::Constant
            } else {
                Head::Unknown
            }
        }
    }
}
