//! Annotations: the attributes of a term, of which `:named` gives it a name.
ghost use Rattle.std.specs.Prelude.{◌≡◌, ◌<◌, ◌≤◌, ◌+◌, ℕ, List, IfOk, MatchResult, drop, length, Ok};
ghost use Rattle.qterm.specs.Tree.{Tree};
ghost use Rattle.qterm.specs.Store.{Has, tree_at};
ghost use Rattle.strat_text.specs.Form.{form_of, forms_of};
ghost use Rattle.smt_names.specs.Annotated as spec;
ghost use Rattle.smt_names.specs.Given.{IsIn, Gives, Goes, Refuses, seen};
ghost use Rattle.smt_names.specs.Reading.{State as States};
ghost use Rattle.smt_names.specs.Table.{IsThere, meaning_in};

use crate::form::{keyword, same};
use crate::meaning::Meaning;
use crate::naming::new_name;
use crate::state::State;
use qterm::TermId;
use sexp_read::Sexp;
use smt_words::{ReadError, What, refused};
use std::alloc::Global;

/// Gives a term the names that its attributes have for it. The list round them stands at the place `at`.
pub fn annotate(
    alloc: Global,
    bytes: &[u8],
    attributes: &[Sexp],
    at: usize,
    id: TermId,
    state: &mut State,
) -> Result<(), ReadError>
    ensures read { (ts : List Tree) → Gives (λ _. tree_at ts id) ts state.new result (spec.some_attributes at (forms_of bytes.now attributes.now) (tree_at ts id) (seen ts state.old)) }
    ensures scopes { state.new.scopes ≡ state.old.scopes }
    ensures bound { state.new.bound ≡ state.old.bound }
    ensures goes { (ts : List Tree) → Has ts id → IsIn ts state.old → Goes ts state.old ts state.new }
{
    if attributes.is_empty() {
        return Err(refused(What::BadShape, at));
    }
    let mut next = 0;
    while next < attributes.len() {
        next = attribute_at(alloc, bytes, attributes, next, at, id, state)?;
    }
    Ok(())
}

/// Reads the attribute that begins with the item `next`; the number of the item behind it.
fn attribute_at(
    alloc: Global,
    bytes: &[u8],
    items: &[Sexp],
    next: usize,
    at: usize,
    id: TermId,
    state: &mut State,
) -> Result<usize, ReadError>
    requires within { next < length items.now }
    ensures read { (ts : List Tree) → MatchResult result (λ end. spec.attributes at (tree_at ts id) (forms_of bytes.now (drop next items.now)) (seen ts state.old) ≡ spec.attributes at (tree_at ts id) (forms_of bytes.now (drop end items.now)) (seen ts state.new)) (λ e. Refuses e (spec.attributes at (tree_at ts id) (forms_of bytes.now (drop next items.now)) (seen ts state.old))) }
    ensures further { IfOk result (λ end. next < end) }
    ensures scopes { state.new.scopes ≡ state.old.scopes }
    ensures bound { state.new.bound ≡ state.old.bound }
    ensures goes { (ts : List Tree) → Has ts id → IsIn ts state.old → Goes ts state.old ts state.new }
{
    match keyword(bytes, &items[next]) {
        None => Err(refused(What::BadShape, at)),
        Some(key) => {
            if !has_value(bytes, items, next) {
                lone(key, at)?;
                return Ok(next + 1);
            }
            attribute(alloc, bytes, key, &items[next + 1], at, id, state)?;
            Ok(next + 2)
        }
    }
}

/// Whether a value stands behind the keyword that is the item `next`: anything but a keyword.
fn has_value(bytes: &[u8], items: &[Sexp], next: usize) -> bool
    requires within { next < length items.now }
    ensures { result ≡ spec.has_value (forms_of bytes.now (drop (next + 1) items.now)) }
{
    next + 1 < items.len() && keyword(bytes, &items[next + 1]).is_none()
}

/// Refuses `:named` without a value.
fn lone(key: &[u8], at: usize) -> Result<(), ReadError>
    ensures { (s : States) → MatchResult result (λ _. spec.lone at key.now s ≡ Ok (tt, s)) (λ e. Refuses e (spec.lone at key.now s)) }
{
    if same(key, b":named") {
        return Err(refused(What::BadShape, at));
    }
    Ok(())
}

/// Reads a keyword with its value: `:named` gives the term a name, any other keyword says nothing.
fn attribute(
    alloc: Global,
    bytes: &[u8],
    key: &[u8],
    value: &Sexp,
    at: usize,
    id: TermId,
    state: &mut State,
) -> Result<(), ReadError>
    ensures read { (ts : List Tree) → Gives (λ _. tt) ts state.new result (spec.attribute at (tree_at ts id) key.now (form_of bytes.now value.now) (seen ts state.old)) }
    ensures scopes { state.new.scopes ≡ state.old.scopes }
    ensures bound { state.new.bound ≡ state.old.bound }
    ensures goes { (ts : List Tree) → Has ts id → IsIn ts state.old → Goes ts state.old ts state.new }
{
    if same(key, b":named") {
        name_term(alloc, bytes, value, at, id, state)
    } else {
        Ok(())
    }
}

/// Gives the term the new name that an s-expression is, unless it stands in the body of a function.
fn name_term(
    alloc: Global,
    bytes: &[u8],
    value: &Sexp,
    at: usize,
    id: TermId,
    state: &mut State,
) -> Result<(), ReadError>
    ensures read { (ts : List Tree) → Gives (λ _. tt) ts state.new result (spec.«named» at (tree_at ts id) (form_of bytes.now value.now) (seen ts state.old)) }
    ensures scopes { state.new.scopes ≡ state.old.scopes }
    ensures bound { state.new.bound ≡ state.old.bound }
    ensures goes { (ts : List Tree) → Has ts id → IsIn ts state.old → Goes ts state.old ts state.new }
{
    if state.in_body {
        return Err(refused(What::BadShape, at));
    }
    define(alloc, bytes, value, at, Meaning::Defined(id), state)
}

/// Gives a meaning to the new name that an s-expression is.
pub fn define(
    alloc: Global,
    bytes: &[u8],
    name: &Sexp,
    at: usize,
    meaning: Meaning,
    state: &mut State,
) -> Result<(), ReadError>
    ensures read { (ts : List Tree) → Gives (λ _. tt) ts state.new result (spec.newly at (meaning_in ts meaning) (form_of bytes.now name.now) (seen ts state.old)) }
    ensures scopes { state.new.scopes ≡ state.old.scopes }
    ensures bound { state.new.bound ≡ state.old.bound }
    ensures goes { (ts : List Tree) → IsThere ts meaning → IsIn ts state.old → Goes ts state.old ts state.new }
{
    match new_name(bytes, &state.symbols, at, name) {
        Err(fault) => Err(fault),
        Ok(name) => {
            state.symbols.add(alloc, name, meaning)?;
            Ok(())
        }
    }
}
