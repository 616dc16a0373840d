//! Names from their words.
ghost use Rattle.std.specs.Prelude.{◌≡◌, ℕ, List, ◌∷◌, ◌++◌, [], IfOk, IfSome, IsSome, IsErrOf};
ghost use Rattle.qterm.specs.Name.{IsNameText};
ghost use Rattle.cert_read.specs.declared.fault.Fault.TheVariants as fault;
ghost use Rattle.symbol_text.specs.Symbols.{symbol_text};
ghost use Rattle.cert_text.specs.TermLines.{name_text};

use crate::fault::Fault;
use qterm::{Name, Sort};
use std::alloc::Global;
use symbol_text::is_plain;

/// The name of the sort that a word writes.
pub(crate) fn named(alloc: Global, word: &[u8], sort: Sort) -> Result<Name, Fault>
    ensures text { IfOk result (λ name. word.now ≡ name_text name) }
    ensures sort { IfOk result (λ name. name.sort ≡ sort) }
    ensures read { (text : List ℕ) → IsNameText text → word.now ≡ symbol_text text → IfOk result (λ name. name.text ≡ text) × (IsErrOf result fault.Malformed → ⊥) }
{
    match text_of(word) {
        Some(text) => allowed(alloc, text, sort),
        None => Err(Fault::Malformed),
    }
}

/// The name of a text, if a name may have it.
fn allowed(alloc: Global, text: &[u8], sort: Sort) -> Result<Name, Fault>
    ensures text { IfOk result (λ name. name.text ≡ text.now) }
    ensures sort { IfOk result (λ name. name.sort ≡ sort) }
    ensures read { IsNameText text.now → IsErrOf result fault.Malformed → ⊥ }
{
    if Name::allows(text) {
        Ok(Name::new(alloc, text, sort)?)
    } else {
        Err(Fault::Malformed)
    }
}

/// The text of the symbol that a word writes: a plain symbol is written as it is, any other between bars.
#[tactic(auto, unfolding(symbol_text::specs::Symbols::symbol_text))]
fn text_of(word: &[u8]) -> Option<&[u8]>
    ensures spelled { IfSome result (λ text. word.now ≡ symbol_text text.now) }
    ensures read { (text : List ℕ) → word.now ≡ symbol_text text → IsSome result × IfSome result (λ found. found.now ≡ text) }
{
    if is_plain(word) {
        return Some(word);
    }
    match between_bars(word) {
        Some(text) => if is_plain(text) { None } else { Some(text) },
        None => None,
    }
}

/// What stands between the bars at both ends of a word.
fn between_bars(word: &[u8]) -> Option<&[u8]>
    ensures spelled { IfSome result (λ text. word.now ≡ 124 ∷ (text.now ++ 124 ∷ [])) }
    ensures read { (text : List ℕ) → word.now ≡ 124 ∷ (text ++ 124 ∷ []) → IsSome result × IfSome result (λ found. found.now ≡ text) }
{
    match word {
        [b'|', text @ .., b'|'] => Some(text),
        _ => None,
    }
}
