//! Linear forms over the terms of a store.
ghost use Rattle.std.specs.Prelude.{◌≡◌, ◌<◌, IfOk, pos, negsuc, length, List, [], ◌∷◌, true, ◌&&◌};
ghost use Rattle.qterm.specs.Store.{HasSort};
ghost use Rattle.qterm.specs.declared.name.Sort.TheVariants.{Int};
ghost use Rattle.qterm.specs.Tree.{Tree};
ghost use Rattle.qlin.specs.Number.{in_range};
ghost use Rattle.qlin.specs.Form.{plus, times, parts_in_range};
ghost use Rattle.qlin.specs.Lin.{form_at, parts_fit, IsForm, IsFormIfFits, IsTightened, AreNonzero};
ghost use Rattle.qterm.specs.Number.{fits};
ghost use Rattle.qlin.specs.Merge.{IsQuotient};

use crate::merge::{are_in_range, content, divided_parts, merged, parts_fit, scaled_parts};
use crate::number::{floor, in_range, negated, number_fits, product, sum};
use qterm::{Store, TermId};
use std::alloc::{AllocError, Global};
use std::marker::Model;

/// The parts of a linear form, each a number and the id of its monomial. Contracts see them as a list.
#[derive(Debug, Drop)]
pub struct LinParts {
    items: Vec<(i128, TermId)>,
}

impl Model for LinParts {
    ghost use Rattle.std.specs.Prelude.{List, ℕ, ℤ};

    ghost Value = { List (ℤ × ℕ) };

    ghost view = { λ p. p.items.items };
}

/// A linear form: a number for each of some monomials, which are Int terms of a store, and a constant.
///
/// The parts stand in the order of the trees of their monomials, and no number is 0. All numbers have 128 bits.
#[derive(Debug, Drop)]
pub struct Lin {
    parts: LinParts,
    constant: i128,
}

/// Why there is no form.
#[derive(Debug, Drop)]
pub enum LinError {
    /// A number of the form passes 128 bits.
    Wide,
    /// Want of memory.
    Memory(AllocError),
}

impl Lin {
    /// The form that is a number.
    pub fn number(alloc: Global, constant: i128) -> Lin
        ensures parts { result.parts ≡ [] }
        ensures constant { result.constant ≡ constant }
        ensures form { (ts : List Tree) → IsForm ts result }
    {
        Lin {
            parts: LinParts {
                items: Vec::new(alloc),
            },
            constant,
        }
    }

    /// The form that is one monomial.
    pub fn monomial(alloc: Global, store: &Store, id: TermId) -> Result<Lin, AllocError>
        requires int { HasSort Int store.now id }
        ensures parts { IfOk result (λ l. l.parts ≡ (pos 1, id) ∷ []) }
        ensures constant { IfOk result (λ l. l.constant ≡ pos 0) }
        ensures form { IfOk result (IsForm store.now) }
    {
        let _size = store.size();
        let mut items = Vec::new(alloc);
        items.push((1, id))?;
        Ok(Lin {
            parts: LinParts { items },
            constant: 0,
        })
    }

    /// The form with these parts and this constant.
    pub(crate) fn from_parts(items: Vec<(i128, TermId)>, constant: i128) -> Lin
        ensures parts { result.parts ≡ items.items }
        ensures constant { result.constant ≡ constant }
    {
        Lin {
            parts: LinParts { items },
            constant,
        }
    }

    /// The form with these parts and this constant, whose numbers have 128 bits.
    fn narrow(items: Vec<(i128, TermId)>, constant: i128) -> Lin
        ensures parts { result.parts ≡ items.items }
        ensures constant { result.constant ≡ constant }
        ensures fits { (parts_fit result.parts && fits result.constant) ≡ true }
    {
        let form = Lin::from_parts(items, constant);
        form.numbers_fit();
        form
    }

    /// All numbers of a form have 128 bits.
    pub fn numbers_fit(&self)
        ensures { (parts_fit self.now.parts && fits self.now.constant) ≡ true }
    {
        parts_fit(self.parts());
        number_fits(self.constant());
    }

    /// The same form.
    pub fn copy(&self, alloc: Global) -> Result<Lin, AllocError>
        ensures { IfOk result (λ l. l ≡ self.now) }
    {
        let items = Vec::from_slice(alloc, self.parts.items.as_slice())?;
        Ok(Lin {
            parts: LinParts { items },
            constant: self.constant,
        })
    }

    /// The numbers and their monomials, in order.
    pub fn parts(&self) -> &[(i128, TermId)]
        ensures { result.now ≡ self.now.parts }
    {
        self.parts.items.as_slice()
    }

    /// The constant.
    pub fn constant(&self) -> i128
        ensures { result ≡ self.now.constant }
    {
        self.constant
    }

    /// The sum of two forms, or `Wide` where one of its numbers passes 128 bits.
    pub fn add(&self, alloc: Global, store: &Store, other: &Lin) -> Result<Lin, LinError>
        requires self_form { IsForm store.now self.now }
        requires other_form { IsForm store.now other.now }
        ensures { IsFormIfFits store.now (plus (form_at store.now self.now) (form_at store.now other.now)) result }
    {
        match merged(alloc, store, self.parts(), other.parts()) {
            Ok(items) => match sum(self.constant, other.constant) {
                Some(constant) => Ok(Lin::narrow(items, constant)),
                None => Err(LinError::Wide),
            },
            Err(error) => Err(error),
        }
    }

    /// The form times a number, or `Wide` where one of its numbers passes 128 bits.
    pub fn scale(&self, alloc: Global, by: i128) -> Result<Lin, LinError>
        ensures { (ts : List Tree) → IsForm ts self.now → IsFormIfFits ts (times by (form_at ts self.now)) result }
    {
        match scaled_parts(alloc, self.parts(), by) {
            Ok(items) => match product(by, self.constant) {
                Some(constant) => Ok(Lin::narrow(items, constant)),
                None => Err(LinError::Wide),
            },
            Err(error) => Err(error),
        }
    }

    /// The form with all signs changed. Its numbers are in the range of the canonical form, and so are the new ones.
    pub fn turned(&self, alloc: Global) -> Result<Lin, AllocError>
        requires parts_range { parts_in_range self.now.parts ≡ true }
        requires range { in_range self.now.constant ≡ true }
        ensures { IfOk result (λ l. (ts : List Tree) → IsForm ts self.now → IsForm ts l × (form_at ts l ≡ times (negsuc 0) (form_at ts self.now))) }
    {
        match scaled_parts(alloc, self.parts(), -1) {
            Ok(items) => Ok(Lin::from_parts(items, negated(self.constant))),
            Err(LinError::Wide) => unreachable!(),
            Err(LinError::Memory(error)) => Err(error),
        }
    }

    /// Whether all numbers of the form are in the range of the canonical form.
    pub fn is_in_range(&self) -> bool
        ensures { result ≡ (parts_in_range self.now.parts && in_range self.now.constant) }
    {
        are_in_range(self.parts()) && in_range(self.constant)
    }

    /// For the atom that the form is at most the bound: both sides divided by the greatest common divisor of the form's
    /// numbers, the bound rounded down.
    pub fn tighten(&self, alloc: Global, bound: i128) -> Result<(Lin, i128), AllocError>
        requires no_constant { self.now.constant ≡ pos 0 }
        requires some_part { 0 < length self.now.parts }
        requires nonzero { AreNonzero self.now.parts }
        ensures { IfOk result (λ r. IsTightened self.now bound r.0 r.1) }
    {
        let (tight, by) = self.quotient(alloc)?;
        Ok((tight, floor(bound, by)))
    }

    /// The parts divided by the greatest common divisor of their numbers, without the constant, and the divisor.
    pub(crate) fn quotient(&self, alloc: Global) -> Result<(Lin, u128), AllocError>
        requires some_part { 0 < length self.now.parts }
        requires nonzero { AreNonzero self.now.parts }
        ensures { IfOk result (λ r. IsQuotient self.now r.0 r.1) }
    {
        let by = content(self.parts());
        let items = divided_parts(alloc, self.parts(), by)?;
        Ok((Lin::from_parts(items, 0), by))
    }
}
