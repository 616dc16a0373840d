//! Items over the terms of a store.
ghost use Rattle.std.specs.Prelude.{◌≡◌, ◌∷◌, [], IfOk};
ghost use Rattle.std.specs.Option.{option_copied};
ghost use Rattle.cert_items.specs.Held as held;

use qlin::Lin;
use qterm::{TermId, TermIds};
use sqlite_items::{Items, at};
use std::alloc::{AllocError, Global};

/// A word: the value of the form is the number that the bits write, the lowest first. Each bit is a literal or a constant.
#[derive(Drop)]
pub struct Word {
    pub form: Lin,
    pub bits: TermIds,
}

/// An item: a formula, or a word.
#[derive(Drop)]
pub enum Held {
    Formula(TermId),
    OfWord(Word),
}

/// The item of that number, from 1.
pub fn item(items: &[Held], number: u32) -> Option<&Held>
    ensures { option_copied result ≡ held.item items.now number }
{
    if number == 0 {
        None
    } else {
        at(items, number as usize - 1)
    }
}

/// The formula of that number.
pub fn formula_at(items: &[Held], number: u32) -> Option<TermId>
    ensures { result ≡ held.formula_of (held.item items.now number) }
{
    match item(items, number) {
        Some(Held::Formula(id)) => Some(*id),
        _ => None,
    }
}

/// The word of that number.
pub fn word_at(items: &[Held], number: u32) -> Option<&Word>
    ensures { option_copied result ≡ held.word_of (held.item items.now number) }
{
    match item(items, number) {
        Some(Held::OfWord(word)) => Some(word),
        _ => None,
    }
}

/// The same word.
fn copy_word(alloc: Global, word: &Word) -> Result<Word, AllocError>
    ensures { IfOk result (λ w. w ≡ word.now) }
{
    Ok(Word {
        form: word.form.copy(alloc)?,
        bits: word.bits.clone()?,
    })
}

/// The same item.
pub fn copy_held(alloc: Global, item: &Held) -> Result<Held, AllocError>
    ensures { IfOk result (λ h. h ≡ item.now) }
{
    match item {
        Held::Formula(id) => Ok(Held::Formula(*id)),
        Held::OfWord(word) => Ok(Held::OfWord(copy_word(alloc, word)?)),
    }
}

/// The same item as that of a number, from 1.
pub(crate) fn copy_at(
    alloc: Global,
    items: &[Held],
    number: u32,
) -> Result<Option<Held>, AllocError>
    ensures { IfOk result (λ o. o ≡ held.item items.now number) }
{
    match item(items, number) {
        None => Ok(None),
        Some(held) => Ok(Some(copy_held(alloc, held)?)),
    }
}

/// The list of one item.
pub fn one(alloc: Global, item: Held) -> Result<Items<Held>, AllocError>
    ensures { IfOk result (λ items. items ≡ item ∷ []) }
{
    let mut items = Items::new(alloc);
    items.push(item)?;
    Ok(items)
}
