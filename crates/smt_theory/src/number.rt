//! Terms that are numbers, their sums and their products.
ghost use Rattle.std.specs.Prelude.{◌≡◌, ◌+ℤ◌, ◌*ℤ◌, All, pos, negsuc, unwrap_or};
ghost use Rattle.qterm.specs.Number.{fitting};
ghost use Rattle.qterm.specs.declared.name.Sort.TheVariants.{Int};
ghost use Rattle.qterm.specs.Store.{Has, HasSort, tree_at, trees_of};
ghost use Rattle.smt_theory.specs.Plain.{first_open, tree_in, IsInt};
ghost use Rattle.smt_theory.specs.Numbers as spec;

use qterm::{Store, Term, TermId};

/// The number that a term is.
pub(crate) fn number(store: &Store, id: TermId) -> Option<i128>
    requires has { Has store.now id }
    ensures { result ≡ spec.number_in (tree_at store.now id) }
{
    match store.view(id) {
        Term::Num(number) => Some(*number),
        _ => None,
    }
}

/// The number that a term is, or another one where it is none.
fn number_or(store: &Store, id: TermId, other: i128) -> i128
    requires has { Has store.now id }
    ensures { result ≡ unwrap_or (spec.number_in (tree_at store.now id)) other }
{
    match number(store, id) {
        Some(number) => number,
        None => other,
    }
}

/// Whether a term is a number.
fn is_number(store: &Store, id: TermId) -> bool
    requires has { Has store.now id }
    ensures { result ≡ spec.is_number (tree_at store.now id) }
{
    match number(store, id) {
        Some(_) => true,
        None => false,
    }
}

/// Whether all of the terms are numbers.
#[tactic(auto, unfolding(crate::specs::Numbers::are_numbers))]
pub(crate) fn are_numbers(store: &Store, ids: &[TermId]) -> bool
    requires has { All (Has store.now) ids.now }
    ensures { result ≡ spec.are_numbers (trees_of store.now ids.now) }
{
    for id in ids {
        if !is_number(store, *id) {
            return false;
        }
    }
    true
}

/// Whether at most one of the terms is no number.
#[tactic(auto, unfolding(crate::specs::Numbers::is_linear))]
pub fn is_linear(store: &Store, ids: &[TermId]) -> bool
    requires has { All (Has store.now) ids.now }
    ensures { result ≡ spec.is_linear (trees_of store.now ids.now) }
{
    for at in 0..ids.len() {
        if !is_number(store, ids[at]) {
            return are_numbers(store, &ids[at + 1..]);
        }
    }
    true
}

/// The sum of the numbers among the terms, or nothing where a prefix passes 128 bits.
#[tactic(auto, unfolding(crate::specs::Numbers::total))]
pub(crate) fn total(store: &Store, ids: &[TermId]) -> Option<i128>
    requires has { All (Has store.now) ids.now }
    ensures { result ≡ spec.total (pos 0) (trees_of store.now ids.now) }
{
    let mut sum = 0i128;
    for id in ids {
        match plus(sum, number_or(store, *id, 0)) {
            Some(next) => sum = next,
            None => return None,
        }
    }
    Some(sum)
}

/// The product of the numbers among the terms, or nothing where a prefix passes 128 bits.
#[tactic(auto, unfolding(crate::specs::Numbers::product))]
pub(crate) fn product(store: &Store, ids: &[TermId]) -> Option<i128>
    requires has { All (Has store.now) ids.now }
    ensures { result ≡ spec.product (pos 1) (trees_of store.now ids.now) }
{
    let mut by = 1i128;
    for id in ids {
        match by.checked_mul(number(store, *id).unwrap_or(1)) {
            Some(next) => by = next,
            None => return None,
        }
    }
    Some(by)
}

/// The number with the other sign, or nothing where it passes 128 bits.
pub(crate) fn turned(number: i128) -> Option<i128>
    ensures { result ≡ fitting (negsuc 0 *ℤ number) }
{
    (-1i128).checked_mul(number)
}

/// The sum of two numbers, or nothing where it passes 128 bits.
fn plus(a: i128, b: i128) -> Option<i128>
    ensures { result ≡ fitting (a +ℤ b) }
{
    a.checked_add(b)
}

/// The first of the terms that is no number.
#[tactic(auto, unfolding(crate::specs::Plain::first_open))]
pub(crate) fn first_open(store: &Store, ids: &[TermId]) -> Option<TermId>
    requires ints { All (HasSort Int store.now) ids.now }
    ensures tree { tree_in store.now result ≡ first_open (trees_of store.now ids.now) }
    ensures int { IsInt store.now result }
{
    for id in ids {
        if !is_number(store, *id) {
            return Some(*id);
        }
    }
    None
}
