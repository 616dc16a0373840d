//! The words of a line, one after the other.
ghost use Rattle.qterm.specs.Name.{IsNameText};
ghost use Rattle.symbol_text.specs.Symbols.{symbol_text};
ghost use Rattle.cert_read.specs.declared.fault.Fault.TheVariants as fault;
ghost use Rattle.cert_read.specs.Numbers.{FitsWide};
ghost use Rattle.cert_read.specs.Words.{IsWord, IsRest, IsWithout};
ghost use Rattle.std.specs.Prelude.{◌≡◌, ◌↔◌, ◌+◌, ◌^◌, ℕ, ℤ, List, IsTrue, IsOk, IsErrOf, Ok, ◌<◌, ◌≤◌, ◌∷◌, ◌++◌, [], length, map, decimal, IfOk, OnOk};
ghost use Rattle.std.specs.Fmt.{signed_decimal};
ghost use Rattle.strat_text.specs.Spelled.{spaced};
ghost use Rattle.cert_text.specs.TermLines.{name_text};

use crate::fault::Fault;
use crate::names::named;
use crate::numbers::{count, integer};
use crate::text::len_before;
use qterm::{Name, Sort};
use sqlite_items::Items;
use std::alloc::Global;

/// What is left of a line.
#[derive(Clone, Copy, Debug)]
pub(crate) struct Words<'a> {
    pub(crate) rest: &'a [u8],
}

impl<'a> Words<'a> {
    /// The first word of a line, and what is left of the line behind it.
    pub(crate) fn first(line: &'a [u8]) -> (&'a [u8], Words<'a>)
        ensures whole { line.now ≡ result.0.now ++ result.1.rest.now }
        ensures word { (word rest : List ℕ) → IsWord word → IsRest rest → line.now ≡ word ++ rest → (result.0.now ≡ word) × (result.1.rest.now ≡ rest) }
    {
        let (word, rest) = line.split_at(word_len(line));
        (word, Words { rest })
    }

    /// Whether nothing is left.
    pub(crate) fn is_at_end(&self) -> bool
        ensures { IsTrue result ↔ (self.now.rest.now ≡ []) }
    {
        self.rest.is_empty()
    }

    /// Nothing is left.
    pub(crate) fn end(&self) -> Result<(), Fault>
        ensures { OnOk result (self.now.rest.now ≡ []) }
    {
        if self.is_at_end() {
            Ok(())
        } else {
            Err(Fault::Malformed)
        }
    }

    /// The next word, before which a space stands.
    pub(crate) fn word(&mut self) -> Result<&'a [u8], Fault>
        ensures spelled { IfOk result (λ word. self.old.rest.now ≡ 32 ∷ (word.now ++ self.new.rest.now)) }
        ensures word { (word rest : List ℕ) → IsWord word → IsRest rest → self.old.rest.now ≡ 32 ∷ (word ++ rest) → IsOk result × IfOk result (λ found. found.now ≡ word) × (self.new.rest.now ≡ rest) }
    {
        match self.rest {
            [b' ', line @ ..] => {
                let (word, rest) = line.split_at(word_len(line));
                self.rest = rest;
                Ok(word)
            }
            _ => Err(Fault::Malformed),
        }
    }

    /// The number of an item or of a part.
    pub(crate) fn count(&mut self) -> Result<u32, Fault>
        ensures spelled { IfOk result (λ n. self.old.rest.now ≡ 32 ∷ (decimal n ++ self.new.rest.now)) }
        ensures read { (n : ℕ) (rest : List ℕ) → n < 2 ^ 32 → IsRest rest → self.old.rest.now ≡ 32 ∷ (decimal n ++ rest) → (result ≡ Ok n) × (self.new.rest.now ≡ rest) }
    {
        match count(self.word()?) {
            Some(number) => Ok(number),
            None => Err(Fault::Malformed),
        }
    }

    /// An integer.
    pub(crate) fn integer(&mut self) -> Result<i128, Fault>
        ensures spelled { IfOk result (λ z. self.old.rest.now ≡ 32 ∷ (signed_decimal z ++ self.new.rest.now)) }
        ensures read { (z : ℤ) (rest : List ℕ) → FitsWide z → IsRest rest → self.old.rest.now ≡ 32 ∷ (signed_decimal z ++ rest) → (result ≡ Ok z) × (self.new.rest.now ≡ rest) }
    {
        match integer(self.word()?) {
            Some(number) => Ok(number),
            None => Err(Fault::Malformed),
        }
    }

    /// A name of the sort.
    pub(crate) fn name(&mut self, alloc: Global, sort: Sort) -> Result<Name, Fault>
        ensures spelled { IfOk result (λ name. self.old.rest.now ≡ 32 ∷ (name_text name ++ self.new.rest.now)) }
        ensures sort { IfOk result (λ name. name.sort ≡ sort) }
        ensures read { (text rest : List ℕ) → IsNameText text → IsRest rest → self.old.rest.now ≡ 32 ∷ (symbol_text text ++ rest) → IfOk result (λ name. name.text ≡ text) × (IsErrOf result fault.Malformed → ⊥) × (self.new.rest.now ≡ rest) }
    {
        named(alloc, self.word()?, sort)
    }

    /// Numbers up to the end.
    pub(crate) fn counts(&mut self, alloc: Global) -> Result<Items<u32>, Fault>
        ensures text { IfOk result (λ all. self.old.rest.now ≡ spaced (map decimal all)) }
        ensures end { OnOk result (self.new.rest.now ≡ []) }
    {
        let mut all = Items::new(alloc);
        while !self.is_at_end() {
            all.push(self.count()?)?;
        }
        Ok(all)
    }

    /// Names of the sort up to the end.
    pub(crate) fn names(&mut self, alloc: Global, sort: Sort) -> Result<Items<Name>, Fault>
        ensures text { IfOk result (λ all. self.old.rest.now ≡ spaced (map name_text all)) }
        ensures end { OnOk result (self.new.rest.now ≡ []) }
    {
        let mut all = Items::new(alloc);
        while !self.is_at_end() {
            all.push(self.name(alloc, sort)?)?;
        }
        Ok(all)
    }
}

/// How many bytes the word at the front of a line has: a quoted one ends with its second bar, any other before a space.
fn word_len(line: &[u8]) -> usize
    ensures within { result ≤ length line.now }
    ensures word { (word rest : List ℕ) → IsWord word → IsRest rest → line.now ≡ word ++ rest → result ≡ length word }
{
    match line {
        [b'|', text @ ..] => quoted_len(text),
        _ => len_before(line, b' '),
    }
}

/// How many bytes a word has that begins with a bar and then has this text at the front.
fn quoted_len(text: &[u8]) -> usize
    ensures within { result ≤ length text.now + 1 }
    ensures closed { (inner rest : List ℕ) → IsWithout 124 inner → text.now ≡ inner ++ 124 ∷ rest → result ≡ length inner + 2 }
{
    let at = len_before(text, b'|');
    if at < text.len() { at + 2 } else { at + 1 }
}
