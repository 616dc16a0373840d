//! The rule `range`: the bounds of a name that is equal to a term over names with bounds.
ghost use Rattle.std.specs.Prelude.{◌≡◌, ◌∷◌, [], ◌+ℤ◌, ◌*ℤ◌, ◌&&◌, ℤ, List, pos, negsuc, neg_ℤ, true, Some, None, IfOk, IfSome, slice_index_or};
ghost use Rattle.std.specs.List.{AllZip};
ghost use Rattle.qterm.specs.Tree.{Tree, Scale, Le, Num};
ghost use Rattle.qterm.specs.Kids.{kids, listed};
ghost use Rattle.qterm.specs.Store.{Extends, HasSort, Has, Shows, tree_at};
ghost use Rattle.qterm.specs.declared.name.Sort.TheVariants.{Bool, Int};
ghost use Rattle.qlin.specs.Linear.{and_then};
ghost use Rattle.qterm.specs.Number.{fitting};
ghost use Rattle.tac_cert.specs.Intervals as intervals;
ghost use Rattle.cert_items.specs.Held.{AllIn, IfIn, shown_all, shown_some};
ghost use Rattle.cert_items.specs.State.{IsState, items_of};
ghost use Rattle.cert_values.specs.Ranges.{IsEquationOf};

use cert_items::{Held, State, formula_at, narrow};
use qterm::{Store, Term, TermId};
use qwalk::{Scan, scan_terms};
use sqlite_items::Items;
use std::alloc::{AllocError, Global};

/// The interval from one number to the other, where there are both.
fn both(low: Option<i128>, high: Option<i128>) -> Option<(i128, i128)>
    ensures { result ≡ intervals.both low high }
{
    match low {
        None => None,
        Some(l) => match high {
            None => None,
            Some(h) => Some((l, h)),
        },
    }
}

/// The sum, if it has 128 bits.
#[tactic(auto, using(crate::proofs::Ends::fitting_some, crate::proofs::Ends::fitting_none))]
fn sum(a: i128, b: i128) -> Option<i128>
    ensures { result ≡ fitting (a +ℤ b) }
{
    match a.checked_add(b) {
        None => None,
        Some(number) => {
            narrow(number);
            Some(number)
        }
    }
}

/// The product, if it has 128 bits.
#[tactic(auto, using(crate::proofs::Ends::fitting_some, crate::proofs::Ends::fitting_none))]
fn product(a: i128, b: i128) -> Option<i128>
    ensures { result ≡ fitting (a *ℤ b) }
{
    match a.checked_mul(b) {
        None => None,
        Some(number) => {
            narrow(number);
            Some(number)
        }
    }
}

/// The sums of numbers of two intervals, where the ends have 128 bits.
fn plus(a: (i128, i128), b: (i128, i128)) -> Option<(i128, i128)>
    ensures { result ≡ intervals.plus a b }
{
    both(sum(a.0, b.0), sum(a.1, b.1))
}

/// A number times the numbers of an interval, where the ends have 128 bits.
fn times(by: i128, a: (i128, i128)) -> Option<(i128, i128)>
    ensures { result ≡ intervals.times by a }
{
    if by < 0 {
        both(product(by, a.1), product(by, a.0))
    } else {
        both(product(by, a.0), product(by, a.1))
    }
}

/// The least interval that holds both.
fn hull(a: (i128, i128), b: (i128, i128)) -> (i128, i128)
    ensures { result ≡ intervals.hull a b }
{
    (least(a.0, b.0), greatest(a.1, b.1))
}

/// The lesser of two numbers.
fn least(a: i128, b: i128) -> i128
    ensures { result ≡ intervals.least a b }
{
    if a <= b { a } else { b }
}

/// The greater of two numbers.
fn greatest(a: i128, b: i128) -> i128
    ensures { result ≡ intervals.greatest a b }
{
    if a <= b { b } else { a }
}

/// The intervals added from left to right, where there are all of them.
#[tactic(auto, using(crate::proofs::Ends::none_next, crate::proofs::Ends::plus_next, crate::proofs::Ends::plus_done))]
fn plus_all(outs: &[Option<(i128, i128)>]) -> Option<(i128, i128)>
    ensures { result ≡ intervals.plus_all (pos 0, pos 0) outs.now }
{
    let mut total = (0, 0);
    for out in outs {
        match plus_one(total, *out) {
            None => return None,
            Some(next) => total = next,
        }
    }
    Some(total)
}

/// The sum of an interval and another, where there is one.
fn plus_one(total: (i128, i128), out: Option<(i128, i128)>) -> Option<(i128, i128)>
    ensures { result ≡ and_then out (λ j. intervals.plus total j) }
{
    match out {
        None => None,
        Some(interval) => plus(total, interval),
    }
}

/// The answer at a place, or none.
fn out_at(outs: &[Option<(i128, i128)>], at: usize) -> Option<(i128, i128)>
    ensures { result ≡ slice_index_or outs.now at None }
{
    if at < outs.len() { outs[at] } else { None }
}

/// A number times an interval, where there is one.
fn times_one(by: i128, out: Option<(i128, i128)>) -> Option<(i128, i128)>
    ensures { result ≡ and_then out (intervals.times by) }
{
    match out {
        None => None,
        Some(interval) => times(by, interval),
    }
}

/// The hull of two intervals, where there are both.
fn hull_of(a: Option<(i128, i128)>, b: Option<(i128, i128)>) -> Option<(i128, i128)>
    ensures { result ≡ and_then a (λ i. and_then b (λ j. Some (intervals.hull i j))) }
{
    match a {
        None => None,
        Some(left) => match b {
            None => None,
            Some(right) => Some(hull(left, right)),
        },
    }
}

/// The interval of a term, from those of its children.
#[tactic(auto, using(crate::proofs::Ends::of_name, crate::proofs::Ends::of_sum, crate::proofs::Ends::of_scale, crate::proofs::Ends::of_ite))]
fn interval_at(
    state: &State,
    store: &Store,
    id: TermId,
    outs: &[Option<(i128, i128)>],
) -> Option<(i128, i128)>
    requires state { IsState store.now state.now }
    requires has { Has store.now id }
    requires children { AllZip (λ t o. o ≡ intervals.interval (intervals.bounds_of (items_of store.now state.now)) t) (listed (kids (tree_at store.now id))) outs.now }
    ensures { result ≡ intervals.interval (intervals.bounds_of (items_of store.now state.now)) (tree_at store.now id) }
{
    match store.view(id) {
        Term::Var(_) => {
            let found = state.bounds(store, id);
            both(found.low, found.up)
        }
        Term::Num(number) => Some((*number, *number)),
        Term::Sum(_) => plus_all(outs),
        Term::Scale(by, _) => times_one(*by, out_at(outs, 0)),
        Term::Ite(_, _, _) => hull_of(out_at(outs, 1), out_at(outs, 2)),
        _ => None,
    }
}

/// The scan for the interval of a term.
#[derive(Drop)]
struct Ranges<'a> {
    state: &'a State,
}

impl Scan<Option<(i128, i128)>> for Ranges<'_> {
    type Task = State;

    ghost task = { λ r. r.state.now };

    ghost ready = { λ r ts. IsState ts r.state.now };

    ghost right = { λ r ts t o. o ≡ intervals.interval (intervals.bounds_of (items_of ts r.state.now)) t };

    fn node(
        &mut self,
        store: &Store,
        id: TermId,
        outs: &[Option<(i128, i128)>],
    ) -> Result<Option<(i128, i128)>, AllocError> {
        Ok(interval_at(self.state, store, id, outs))
    }
}

/// The interval of a term. Each distinct subterm is asked once.
fn interval_of(
    alloc: Global,
    store: &Store,
    state: &State,
    id: TermId,
) -> Result<Option<(i128, i128)>, AllocError>
    requires state { IsState store.now state.now }
    requires has { Has store.now id }
    ensures { IfOk result (λ o. o ≡ intervals.interval (intervals.bounds_of (items_of store.now state.now)) (tree_at store.now id)) }
{
    let mut ranges = Ranges { state };
    let found = scan_terms(alloc, store, &mut ranges, id)?;
    Ok(found)
}

/// The new items of `range`: the bounds of a name that is equal to a term over names with bounds.
#[tactic(auto, using(cert_items::proofs::Finding::formula_is, cert_items::proofs::Finding::formula_gone, qterm::proofs::Extending::Extends_refl))]
pub fn range(
    alloc: Global,
    store: &mut Store,
    state: &State,
    item: u32,
) -> Result<Option<Items<Held>>, AllocError>
    requires state { IsState store.old state.now }
    ensures gives { IfOk result (λ o. shown_some store.new o ≡ intervals.range (items_of store.old state.now) item) }
    ensures items { IfOk result (IfIn store.new) }
    ensures extends { Extends store.old store.new }
{
    match formula_at(state.items(), item) {
        None => Ok(None),
        Some(id) => {
            let given = range_of(alloc, store, state, id)?;
            Ok(given)
        }
    }
}

/// The same of a formula.
#[tactic(auto, using(crate::proofs::Ends::equation_given, crate::proofs::Ends::equation_none, qterm::proofs::Extending::Extends_refl))]
fn range_of(
    alloc: Global,
    store: &mut Store,
    state: &State,
    id: TermId,
) -> Result<Option<Items<Held>>, AllocError>
    requires state { IsState store.old state.now }
    requires formula { HasSort Bool store.old id }
    ensures gives { IfOk result (λ o. shown_some store.new o ≡ intervals.range_of (intervals.bounds_of (items_of store.old state.now)) (Some (tree_at store.old id))) }
    ensures items { IfOk result (IfIn store.new) }
    ensures extends { Extends store.old store.new }
{
    match equation_of(store, id) {
        None => Ok(None),
        Some((name, term)) => {
            let given = range_by(alloc, store, state, name, term)?;
            Ok(given)
        }
    }
}

/// The sides of a formula that is the equation of a name and a term.
fn equation_of(store: &Store, id: TermId) -> Option<(TermId, TermId)>
    requires formula { HasSort Bool store.now id }
    ensures { IsEquationOf store.now (tree_at store.now id) result }
{
    match store.view(id) {
        Term::Eq(left, right) => match store.view(*left) {
            Term::Var(_) => Some((*left, *right)),
            _ => None,
        },
        _ => None,
    }
}

/// The same of the two sides.
#[tactic(auto, using(crate::proofs::Ends::range_none, crate::proofs::Ends::range_some, qterm::proofs::Extending::Extends_refl))]
fn range_by(
    alloc: Global,
    store: &mut Store,
    state: &State,
    name: TermId,
    term: TermId,
) -> Result<Option<Items<Held>>, AllocError>
    requires state { IsState store.old state.now }
    requires name { HasSort Int store.old name }
    requires term { HasSort Int store.old term }
    ensures gives { IfOk result (λ o. shown_some store.new o ≡ and_then (intervals.interval (intervals.bounds_of (items_of store.old state.now)) (tree_at store.old term)) (intervals.range_if (tree_at store.old name))) }
    ensures items { IfOk result (IfIn store.new) }
    ensures extends { Extends store.old store.new }
{
    match interval_of(alloc, store, state, term)? {
        None => Ok(None),
        Some(interval) => {
            let given = ends(alloc, store, name, interval)?;
            Ok(given)
        }
    }
}

/// The number with its sign changed, if it has 128 bits.
#[tactic(auto, using(crate::proofs::Ends::fitting_some, crate::proofs::Ends::fitting_none))]
fn opposite(number: i128) -> Option<i128>
    ensures { result ≡ fitting (neg_ℤ number) }
{
    match number.checked_neg() {
        None => None,
        Some(minus) => {
            narrow(minus);
            Some(minus)
        }
    }
}

/// The bounds of a name that an interval gives.
#[tactic(auto, using(crate::proofs::Ends::ends_none, crate::proofs::Ends::ends_some, qterm::proofs::Extending::Extends_refl))]
fn ends(
    alloc: Global,
    store: &mut Store,
    name: TermId,
    interval: (i128, i128),
) -> Result<Option<Items<Held>>, AllocError>
    requires name { HasSort Int store.old name }
    ensures gives { IfOk result (λ o. shown_some store.new o ≡ intervals.range_if (tree_at store.old name) interval) }
    ensures items { IfOk result (IfIn store.new) }
    ensures extends { Extends store.old store.new }
{
    match opposite(interval.0) {
        None => Ok(None),
        Some(minus) => {
            let items = both_ends(alloc, store, name, minus, interval.1)?;
            Ok(Some(items))
        }
    }
}

/// That minus a name is at most the one number, and the name at most the other.
#[tactic(auto, using(crate::proofs::Ends::ends_shown, crate::proofs::Ends::ends_in, qterm::proofs::Fitting::HasSort_extends, qterm::proofs::Extending::Extends_trans))]
fn both_ends(
    alloc: Global,
    store: &mut Store,
    name: TermId,
    minus: i128,
    high: i128,
) -> Result<Items<Held>, AllocError>
    requires name { HasSort Int store.old name }
    ensures shown { IfOk result (λ hs. shown_all store.new hs ≡ intervals.range_new (tree_at store.old name) minus high) }
    ensures items { IfOk result (AllIn store.new) }
    ensures extends { Extends store.old store.new }
{
    let first = minus_at_most(store, name, minus)?;
    let second = at_most(store, name, high)?;
    let mut items = Items::new(alloc);
    items.push(Held::Formula(first))?;
    items.push(Held::Formula(second))?;
    Ok(items)
}

/// That minus a term is at most a number.
fn minus_at_most(store: &mut Store, id: TermId, number: i128) -> Result<TermId, AllocError>
    requires int { HasSort Int store.old id }
    ensures shows { IfOk result (λ r. Shows store.new r (Le (Scale (negsuc 0) (tree_at store.old id)) (Num number))) }
    ensures sort { IfOk result (HasSort Bool store.new) }
    ensures extends { Extends store.old store.new }
{
    let minus = store.intern(Term::Scale(-1, id))?;
    let bound = store.intern(Term::Num(number))?;
    let atom = store.intern(Term::Le(minus, bound))?;
    Ok(atom)
}

/// That a term is at most a number.
fn at_most(store: &mut Store, id: TermId, number: i128) -> Result<TermId, AllocError>
    requires int { HasSort Int store.old id }
    ensures shows { IfOk result (λ r. Shows store.new r (Le (tree_at store.old id) (Num number))) }
    ensures sort { IfOk result (HasSort Bool store.new) }
    ensures extends { Extends store.old store.new }
{
    let bound = store.intern(Term::Num(number))?;
    let atom = store.intern(Term::Le(id, bound))?;
    Ok(atom)
}
