//! Up to five names, in the order of their first places in a formula.
ghost use Rattle.std.specs.Prelude.{◌≡◌, ◌∷◌, [], ◌^◌, ◌-◌, false, length, Some, IfOk, nat_eq, if◌then◌else◌};
ghost use Rattle.std.specs.List.{AllZip};
ghost use Rattle.std.specs.Option.{option_map};
ghost use Rattle.qterm.specs.Store.{Has, tree_at};
ghost use Rattle.qterm.specs.Kids.{kids, listed};
ghost use Rattle.cert_values.specs.FewNames.{ids_of, is_among, put_id, then_put, put_ids, join, join_all, columns, column_of, IsFew};

use cert_items::is_int;
use qterm::{Store, Term, TermId};
use qwalk::{Scan, scan_terms};
use std::alloc::{AllocError, Global};

/// The values of the five names in the 32 rows of a table: bit r is the value in row r, whose bits are those of the number r.
const FIRST: u32 = 0xaaaa_aaaa;

const SECOND: u32 = 0xcccc_cccc;

const THIRD: u32 = 0xf0f0_f0f0;

const FOURTH: u32 = 0xff00_ff00;

const FIFTH: u32 = 0xffff_0000;

/// Up to five names, as ids of their terms.
#[derive(Clone, Copy)]
pub(crate) enum Few {
    Zero,
    One(TermId),
    Two(TermId, TermId),
    Three(TermId, TermId, TermId),
    Four(TermId, TermId, TermId, TermId),
    Five(TermId, TermId, TermId, TermId, TermId),
}

/// Whether the name is one of them.
pub(crate) fn is_among(few: &Few, id: TermId) -> bool
    ensures { result ≡ is_among (ids_of few.now) id }
{
    match few {
        Few::Zero => false,
        Few::One(a) => id == *a,
        Few::Two(a, b) => id == *a || id == *b,
        Few::Three(a, b, c) => id == *a || id == *b || id == *c,
        Few::Four(a, b, c, d) => id == *a || id == *b || id == *c || id == *d,
        Few::Five(a, b, c, d, e) => id == *a || id == *b || id == *c || id == *d || id == *e,
    }
}

/// With one more at the end.
fn with_last(few: &Few, id: TermId) -> Option<Few>
    requires new { is_among (ids_of few.now) id ≡ false }
    ensures { option_map ids_of result ≡ put_id (ids_of few.now) id }
{
    match few {
        Few::Zero => Some(Few::One(id)),
        Few::One(a) => Some(Few::Two(*a, id)),
        Few::Two(a, b) => Some(Few::Three(*a, *b, id)),
        Few::Three(a, b, c) => Some(Few::Four(*a, *b, *c, id)),
        Few::Four(a, b, c, d) => Some(Few::Five(*a, *b, *c, *d, id)),
        Few::Five(_, _, _, _, _) => None,
    }
}

/// With a name at the end, if it isn't there; nothing past five.
fn put(few: Few, id: TermId) -> Option<Few>
    ensures { option_map ids_of result ≡ put_id (ids_of few) id }
{
    let there = is_among(&few, id);
    if there {
        Some(few)
    } else {
        with_last(&few, id)
    }
}

/// The same where there are names.
fn then_put(few: Option<Few>, id: TermId) -> Option<Few>
    ensures { option_map ids_of result ≡ then_put (option_map ids_of few) id }
{
    match few {
        None => None,
        Some(names) => put(names, id),
    }
}

/// The same of several names.
fn put_all(few: Option<Few>, more: Few) -> Option<Few>
    ensures { option_map ids_of result ≡ put_ids (option_map ids_of few) (ids_of more) }
{
    match more {
        Few::Zero => few,
        Few::One(a) => then_put(few, a),
        Few::Two(a, b) => then_put(then_put(few, a), b),
        Few::Three(a, b, c) => then_put(then_put(then_put(few, a), b), c),
        Few::Four(a, b, c, d) => then_put(then_put(then_put(then_put(few, a), b), c), d),
        Few::Five(a, b, c, d, e) => then_put(
            then_put(then_put(then_put(then_put(few, a), b), c), d),
            e,
        ),
    }
}

/// The names of both, where there are both and they are five at most.
fn join(few: Option<Few>, more: Option<Few>) -> Option<Few>
    ensures { option_map ids_of result ≡ join (option_map ids_of few) (option_map ids_of more) }
{
    match more {
        None => None,
        Some(names) => put_all(few, names),
    }
}

/// The names of all.
#[tactic(auto, using(crate::proofs::Gathering::join_next, crate::proofs::Gathering::join_done))]
fn join_all(outs: &[Option<Few>]) -> Option<Few>
    ensures { option_map ids_of result ≡ join_all (Some []) outs.now }
{
    let mut total = Some(Few::Zero);
    for out in outs {
        total = join(total, *out);
    }
    total
}

/// The names of a term, from those of its children.
#[tactic(auto, using(crate::proofs::Gathering::of_name, crate::proofs::Gathering::of_int, crate::proofs::Gathering::of_kids, crate::proofs::Gathering::of_and, crate::proofs::Gathering::of_or))]
fn few_at(store: &Store, id: TermId, outs: &[Option<Few>]) -> Option<Few>
    requires has { Has store.now id }
    requires children { AllZip (IsFew store.now) (listed (kids (tree_at store.now id))) outs.now }
    ensures { IsFew store.now (tree_at store.now id) result }
{
    store.is_distinct();
    match store.view(id) {
        Term::Var(name) => {
            if is_int(name.sort()) {
                None
            } else {
                Some(Few::One(id))
            }
        }
        Term::Num(_) | Term::Sum(_) | Term::Scale(_, _) | Term::Le(_, _) | Term::Eq(_, _) => None,
        Term::True => join_all(outs),
        Term::False => join_all(outs),
        Term::Iff(_, _) => join_all(outs),
        Term::Not(_) => join_all(outs),
        Term::And(_) => join_all(outs),
        Term::Or(_) => join_all(outs),
        Term::Ite(_, _, _) => join_all(outs),
    }
}

/// The scan for the names.
#[derive(Drop)]
struct Names {}

impl Scan<Option<Few>> for Names {
    type Task = ();

    ghost task = { λ _. tt };

    ghost right = { λ _ ts t o. IsFew ts t o };

    fn node(
        &mut self,
        store: &Store,
        id: TermId,
        outs: &[Option<Few>],
    ) -> Result<Option<Few>, AllocError> {
        Ok(few_at(store, id, outs))
    }
}

/// The names of a term in which no Int term occurs, if they are five at most. Each distinct subterm is asked once.
pub(crate) fn few_names(alloc: Global, store: &Store, id: TermId) -> Result<Option<Few>, AllocError>
    requires has { Has store.now id }
    ensures { IfOk result (IsFew store.now (tree_at store.now id)) }
{
    let mut names = Names {};
    let found = scan_terms(alloc, store, &mut names, id)?;
    Ok(found)
}

/// The rows that a table of the names has: bit r is set where there is a row r.
pub(crate) fn rows(few: &Few) -> u32
    ensures { result ≡ 2 ^ (2 ^ length (ids_of few.now)) - 1 }
{
    match few {
        Few::Zero => 0x1,
        Few::One(_) => 0x3,
        Few::Two(_, _) => 0xf,
        Few::Three(_, _, _) => 0xff,
        Few::Four(_, _, _, _) => 0xffff,
        Few::Five(_, _, _, _, _) => 0xffff_ffff,
    }
}

/// A column for the name, and another one for another name.
fn choose(id: TermId, name: TermId, column: u32, other: u32) -> u32
    ensures { result ≡ (if nat_eq id name then column else other) }
{
    if id == name { column } else { other }
}

/// The values of a name in the rows: bit r is its value in row r.
pub(crate) fn column(few: &Few, id: TermId) -> u32
    ensures { result ≡ column_of (ids_of few.now) columns id }
{
    match few {
        Few::Zero => 0,
        Few::One(a) => choose(id, *a, FIRST, 0),
        Few::Two(a, b) => choose(id, *a, FIRST, choose(id, *b, SECOND, 0)),
        Few::Three(a, b, c) => {
            let last = choose(id, *c, THIRD, 0);
            choose(id, *a, FIRST, choose(id, *b, SECOND, last))
        }
        Few::Four(a, b, c, d) => {
            let last = choose(id, *d, FOURTH, 0);
            let third = choose(id, *c, THIRD, last);
            choose(id, *a, FIRST, choose(id, *b, SECOND, third))
        }
        Few::Five(a, b, c, d, e) => {
            let last = choose(id, *e, FIFTH, 0);
            let fourth = choose(id, *d, FOURTH, last);
            let third = choose(id, *c, THIRD, fourth);
            choose(id, *a, FIRST, choose(id, *b, SECOND, third))
        }
    }
}
