//! Names whose bounds are within two numbers.
ghost use Rattle.std.specs.Prelude.{◌≡◌, ◌&&◌, true, false, IfOk, IfSome, Some};
ghost use Rattle.qterm.specs.Store.{Extends};
ghost use Rattle.qeval.specs.Bounds as texts;
ghost use Rattle.cert_items.specs.State.{IsState, items_of};
ghost use Rattle.cert_words.specs.Bounded.{IsBounded};

use crate::names::var;
use cert_items::{Bounds, State};
use qterm::{Name, Store, TermId};
use std::alloc::AllocError;

/// Whether there is a low bound of at least `low`.
fn at_least(low: i128, bound: Option<i128>) -> bool
    ensures { result ≡ texts.at_least low bound }
{
    match bound {
        None => false,
        Some(number) => low <= number,
    }
}

/// Whether there is an up bound of at most `up`.
fn at_most(up: i128, bound: Option<i128>) -> bool
    ensures { result ≡ texts.at_most up bound }
{
    match bound {
        None => false,
        Some(number) => number <= up,
    }
}

/// Whether the bounds are within the two numbers.
fn are_within(bounds: Bounds, low: i128, up: i128) -> bool
    ensures { result ≡ (texts.at_least low bounds.low && texts.at_most up bounds.up) }
{
    at_least(low, bounds.low) && at_most(up, bounds.up)
}

/// The term of a name, if its bounds are within the two numbers.
#[tactic(auto, using(cert_items::proofs::Finding::stays, crate::proofs::Giving::bounds_before))]
pub(crate) fn bounded(
    store: &mut Store,
    state: &State,
    name: &Name,
    low: i128,
    up: i128,
) -> Result<Option<TermId>, AllocError>
    requires state { IsState store.old state.now }
    ensures bounded { IfOk result (IsBounded store.new (items_of store.old state.now) name.now low up) }
    ensures extends { Extends store.old store.new }
{
    let id = var(store, name)?;
    let found = state.bounds(store, id);
    if are_within(found, low, up) {
        Ok(Some(id))
    } else {
        Ok(None)
    }
}
