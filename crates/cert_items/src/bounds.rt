//! The bounds of names: the tightest that items give, in a map that is kept up to date.
ghost use Rattle.std.specs.Prelude.{◌≡◌, ℕ, Some, cond, nat_eq, unwrap_or, OnOk, IfSome};
ghost use Rattle.std.specs.HashMap.{get};
ghost use Rattle.qterm.specs.Store.{Has, tree_at};
ghost use Rattle.qwalk.specs.Walk.{same_id};
ghost use Rattle.qeval.specs.Bounds as texts;
ghost use Rattle.cert_items.specs.Bounded.{no_bounds, bounds_in, tightened, shown_given, given_of, le_given, minus_given, eq_given, is_name};

use qterm::{Store, Term, TermId};
use std::alloc::{AllocError, Global};
use std::collections::HashMap;

/// The tightest bounds of a name among the items.
#[derive(Clone, Copy, Debug)]
pub struct Bounds {
    pub low: Option<i128>,
    pub up: Option<i128>,
}

/// Bounds that a formula gives a name.
#[derive(Clone, Copy)]
pub(crate) struct Given {
    pub name: TermId,
    pub bounds: Bounds,
}

/// The bounds of names by the ids of their terms.
#[derive(Drop)]
pub(crate) struct BoundMap {
    known: HashMap<TermId, Bounds>,
}

impl BoundMap {
    /// No bounds yet. It takes no memory.
    pub(crate) fn new(alloc: Global) -> BoundMap
        ensures { (i : ℕ) → bounds_in result i ≡ no_bounds }
    {
        BoundMap {
            known: HashMap::new(alloc),
        }
    }

    /// The bounds of a name.
    pub(crate) fn look(&self, id: TermId) -> Bounds
        ensures { result ≡ bounds_in self.now id }
    {
        match self.known.get(&id).copied() {
            Some(bounds) => bounds,
            None => Bounds {
                low: None,
                up: None,
            },
        }
    }

    /// Puts the bounds of a name down.
    pub(crate) fn note(&mut self, id: TermId, bounds: Bounds) -> Result<(), AllocError>
        ensures { OnOk result ((j : ℕ) → bounds_in self.new j ≡ cond (nat_eq id j) bounds (bounds_in self.old j)) }
    {
        self.set(id, bounds)?;
        Ok(())
    }

    fn set(&mut self, id: TermId, bounds: Bounds) -> Result<(), AllocError>
        ensures { OnOk result ((j : ℕ) → get same_id self.new.known j ≡ cond (nat_eq id j) (Some bounds) (get same_id self.old.known j)) }
    {
        self.known.insert(id, bounds)?;
        Ok(())
    }
}

/// The tighter of two bounds each.
pub(crate) fn tighten(old: Bounds, new: Bounds) -> Bounds
    ensures { result ≡ tightened old new }
{
    Bounds {
        low: greater(old.low, new.low),
        up: lesser(old.up, new.up),
    }
}

/// The greater of two numbers, where there is one.
fn greater(a: Option<i128>, b: Option<i128>) -> Option<i128>
    ensures { result ≡ texts.greater a b }
{
    match (a, b) {
        (None, _) => b,
        (_, None) => a,
        (Some(x), Some(y)) => Some(x.max(y)),
    }
}

/// The lesser of two numbers, where there is one.
fn lesser(a: Option<i128>, b: Option<i128>) -> Option<i128>
    ensures { result ≡ texts.lesser a b }
{
    match (a, b) {
        (None, _) => b,
        (_, None) => a,
        (Some(x), Some(y)) => Some(x.min(y)),
    }
}

/// The bounds that a formula gives, and the name that it gives them.
pub(crate) fn given_by(store: &Store, id: TermId) -> Option<Given>
    requires has { Has store.now id }
    ensures is { shown_given store.now result ≡ given_of (tree_at store.now id) }
    ensures has { IfSome result (λ g. Has store.now g.name) }
{
    match store.view(id) {
        Term::Le(a, b) => match number_in(store, *b) {
            None => None,
            Some(c) => le_given(store, *a, c),
        },
        Term::Eq(a, b) => match number_in(store, *b) {
            None => None,
            Some(c) => eq_given(store, *a, c),
        },
        _ => None,
    }
}

/// What a term is at most a number gives.
fn le_given(store: &Store, a: TermId, c: i128) -> Option<Given>
    requires has { Has store.now a }
    ensures is { shown_given store.now result ≡ le_given (tree_at store.now a) c }
    ensures has { IfSome result (λ g. Has store.now g.name) }
{
    match store.view(a) {
        Term::Var(_) => Some(Given {
            name: a,
            bounds: Bounds {
                low: None,
                up: Some(c),
            },
        }),
        Term::Scale(by, x) => minus_given(store, *by, *x, c),
        _ => None,
    }
}

/// What a term times a number gives that is at most a number.
fn minus_given(store: &Store, by: i128, x: TermId, c: i128) -> Option<Given>
    requires has { Has store.now x }
    ensures is { shown_given store.now result ≡ minus_given by (tree_at store.now x) c }
    ensures has { IfSome result (λ g. Has store.now g.name) }
{
    if by == -1 && is_name(store, x) {
        Some(Given {
            name: x,
            bounds: Bounds {
                low: c.checked_neg(),
                up: None,
            },
        })
    } else {
        None
    }
}

/// What a term that is equal to a number gives.
fn eq_given(store: &Store, a: TermId, c: i128) -> Option<Given>
    requires has { Has store.now a }
    ensures is { shown_given store.now result ≡ eq_given (tree_at store.now a) c }
    ensures has { IfSome result (λ g. Has store.now g.name) }
{
    if is_name(store, a) {
        Some(Given {
            name: a,
            bounds: Bounds {
                low: Some(c),
                up: Some(c),
            },
        })
    } else {
        None
    }
}

/// The number that a term is.
fn number_in(store: &Store, id: TermId) -> Option<i128>
    requires has { Has store.now id }
    ensures { result ≡ texts.number_in (tree_at store.now id) }
{
    match store.view(id) {
        Term::Num(c) => Some(*c),
        _ => None,
    }
}

/// Whether a term is a name.
fn is_name(store: &Store, id: TermId) -> bool
    requires has { Has store.now id }
    ensures { result ≡ is_name (tree_at store.now id) }
{
    matches!(store.view(id), Term::Var(_))
}
