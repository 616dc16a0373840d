//! Sums of canonical terms.
ghost use Rattle.std.specs.Prelude.{◌≡◌, ◌+ℤ◌, IfOk, All, MatchOption, true, false};
ghost use Rattle.qterm.specs.Store.{HasSort, Extends, trees_at};
ghost use Rattle.qterm.specs.declared.name.Sort.TheVariants.{Int};
ghost use Rattle.qlin.specs.Number.{in_range};
ghost use Rattle.qlin.specs.Form.{zero_form};
ghost use Rattle.qlin.specs.Linear.{sum_onto, sum_of};
ghost use Rattle.qlin.specs.Lin.{form_at, IsForm};
ghost use Rattle.qlin.specs.Merge.{AreParts};
ghost use Rattle.qnegation.specs.Answer.{IsOwn, Answers};
ghost use Rattle.qcanon.specs.Sums.{GivesForm, AreNumbers, IsPartAdded, ArePartsAdded, IsFormAdded, form_of, number_in, parts_of};

use crate::form::{read, write};
use indexmap::IndexMap;
use qlin::{Lin, in_range};
use qterm::{Store, TermId};
use std::alloc::{AllocError, Global};

/// What is summed up so far: the number of each monomial, in the order in which these came, and the constant.
#[derive(Drop)]
struct Totals {
    numbers: IndexMap<TermId, i128>,
    constant: i128,
}

/// The sum of canonical terms, where each number of it is in range after each child.
pub(crate) fn sum(
    alloc: Global,
    store: &mut Store,
    ids: &[TermId],
) -> Result<Option<TermId>, AllocError>
    requires ints { All (HasSort Int store.old) ids.now }
    requires own { All (IsOwn store.old) ids.now }
    ensures answers { IfOk result (Answers store.new (sum_of (trees_at store.old ids.now))) }
    ensures extends { Extends store.old store.new }
{
    let form = summed(alloc, store, ids)?;
    write(alloc, store, form)
}

/// The sum of the forms of canonical terms, where each number of it is in range after each of them.
fn summed(alloc: Global, store: &Store, ids: &[TermId]) -> Result<Option<Lin>, AllocError>
    requires ints { All (HasSort Int store.now) ids.now }
    requires own { All (IsOwn store.now) ids.now }
    ensures { IfOk result (GivesForm store.now (sum_onto zero_form (trees_at store.now ids.now))) }
{
    let mut totals = Totals {
        numbers: IndexMap::new(alloc),
        constant: 0,
    };
    for id in ids {
        let form = read(alloc, store, *id)?;
        if !add(store, &mut totals, &form)? {
            return Ok(None);
        }
    }
    let form = collect(alloc, store, &totals)?;
    Ok(Some(form))
}

/// Adds a form. It tells whether each number is still in range.
fn add(store: &Store, totals: &mut Totals, form: &Lin) -> Result<bool, AllocError>
    requires form { IsForm store.now form.now }
    requires good { AreNumbers store.now totals.old.numbers.entries }
    ensures { IfOk result (λ b. IsFormAdded store.now totals.old form.now b totals.new) }
{
    if !add_parts(store, &mut totals.numbers, form.parts())? {
        return Ok(false);
    }
    match sum_in_range(totals.constant, form.constant()) {
        Some(constant) => {
            totals.constant = constant;
            Ok(true)
        }
        None => Ok(false),
    }
}

/// Adds parts. It tells whether each number is still in range.
fn add_parts(
    store: &Store,
    numbers: &mut IndexMap<TermId, i128>,
    parts: &[(i128, TermId)],
) -> Result<bool, AllocError>
    requires parts { AreParts store.now parts.now }
    requires good { AreNumbers store.now numbers.old.entries }
    ensures { IfOk result (λ b. ArePartsAdded store.now numbers.old.entries parts.now b numbers.new.entries) }
{
    store.is_distinct();
    for part in parts {
        if !add_part(numbers, *part)? {
            return Ok(false);
        }
    }
    Ok(true)
}

/// Adds a part to the number of its monomial. It tells whether this is still in range.
fn add_part(numbers: &mut IndexMap<TermId, i128>, part: (i128, TermId)) -> Result<bool, AllocError>
    ensures { IfOk result (λ b. IsPartAdded numbers.old.entries part b numbers.new.entries) }
{
    match sum_in_range(number_of(numbers, part.1), part.0) {
        Some(number) => {
            numbers.insert(part.1, number)?;
            Ok(true)
        }
        None => Ok(false),
    }
}

/// The number of a monomial, or 0.
fn number_of(numbers: &IndexMap<TermId, i128>, id: TermId) -> i128
    ensures { result ≡ number_in numbers.now.entries id }
{
    match numbers.get(&id) {
        Some(number) => *number,
        None => 0,
    }
}

/// The sum of two numbers, if it is in range.
fn sum_in_range(left: i128, right: i128) -> Option<i128>
    ensures { MatchOption result (in_range (left +ℤ right) ≡ false) (λ sum. (sum ≡ left +ℤ right) × (in_range sum ≡ true)) }
{
    match left.checked_add(right) {
        Some(sum) => if in_range(sum) { Some(sum) } else { None },
        None => None,
    }
}

/// The form of what is summed up.
fn collect(alloc: Global, store: &Store, totals: &Totals) -> Result<Lin, AllocError>
    requires good { AreNumbers store.now totals.now.numbers.entries }
    ensures form { IfOk result (IsForm store.now) }
    ensures same { IfOk result (λ l. form_at store.now l ≡ form_of store.now totals.now) }
{
    let parts = parts_of(alloc, &totals.numbers)?;
    Lin::collect(alloc, store, parts.as_slice(), totals.constant)
}

/// The monomials with their numbers, as parts.
fn parts_of(
    alloc: Global,
    numbers: &IndexMap<TermId, i128>,
) -> Result<Vec<(i128, TermId)>, AllocError>
    ensures { IfOk result (λ v. v.items ≡ parts_of numbers.now.entries) }
{
    let mut parts = Vec::new(alloc);
    for (id, number) in numbers {
        parts.push((*number, *id))?;
    }
    Ok(parts)
}
