//! What s-expressions show of names and numbers.
ghost use Rattle.std.specs.Prelude.{◌≡◌, ℕ, IsTrue};
ghost use Rattle.std.specs.Option.{option_copied};
ghost use Rattle.std.specs.Str.{bytes_eq};
ghost use Rattle.qterm.specs.Name.{IsNameText};
ghost use Rattle.sexp_read.specs.Atoms.{text_at as text_between};
ghost use Rattle.strat_text.specs.Form as form;
ghost use Rattle.smt_names.specs.Text as spec;

use qterm::Name;
use sexp_read::{AtomKind, Sexp};
use strat_text::value;

/// The bytes from one place to another, none where there are no such.
pub fn text_at(bytes: &[u8], start: usize, end: usize) -> &[u8]
    ensures { result.now ≡ form.some_text (text_between bytes.now start end) }
{
    if start <= end && end <= bytes.len() {
        &bytes[start..end]
    } else {
        &[]
    }
}

/// The place of the first byte.
#[tactic(auto, unfolding(strat_text::specs::Form::form_of))]
pub fn place(bytes: &[u8], sexp: &Sexp) -> usize
    ensures { result ≡ form.place_of (form.form_of bytes.now sexp.now) }
{
    match sexp {
        Sexp::Atom { start, .. } => *start,
        Sexp::List { start, .. } => *start,
    }
}

/// The name that a symbol is. None for anything else.
#[tactic(auto, unfolding(strat_text::specs::Form::form_of))]
pub fn name<'a>(bytes: &'a [u8], sexp: &Sexp) -> Option<&'a [u8]>
    ensures { option_copied result ≡ spec.name_of (form.form_of bytes.now sexp.now) }
{
    match sexp {
        Sexp::Atom { kind, start, end } => name_in(*kind, text_at(bytes, *start, *end)),
        Sexp::List { .. } => None,
    }
}

/// The name that an atom of this kind is.
pub fn name_in(kind: AtomKind, text: &[u8]) -> Option<&[u8]>
    ensures { option_copied result ≡ spec.name_in kind text.now }
{
    match kind {
        AtomKind::Symbol => Some(text),
        AtomKind::Quoted => Some(bare(text)),
        _ => None,
    }
}

/// The text between bars.
pub fn bare(text: &[u8]) -> &[u8]
    ensures { result.now ≡ spec.bare text.now }
{
    if text.len() >= 2 {
        &text[1..text.len() - 1]
    } else {
        &[]
    }
}

/// The keyword that an atom is. None for anything else.
#[tactic(auto, unfolding(strat_text::specs::Form::form_of))]
pub fn keyword<'a>(bytes: &'a [u8], sexp: &Sexp) -> Option<&'a [u8]>
    ensures { option_copied result ≡ spec.keyword_of (form.form_of bytes.now sexp.now) }
{
    match sexp {
        Sexp::Atom { kind, start, end } => keyword_in(*kind, text_at(bytes, *start, *end)),
        Sexp::List { .. } => None,
    }
}

/// The digits of a numeral. None for anything else.
#[tactic(auto, unfolding(strat_text::specs::Form::form_of))]
pub fn digits<'a>(bytes: &'a [u8], sexp: &Sexp) -> Option<&'a [u8]>
    ensures { option_copied result ≡ form.digits_of (form.form_of bytes.now sexp.now) }
{
    match sexp {
        Sexp::Atom { kind, start, end } => digits_in(*kind, text_at(bytes, *start, *end)),
        Sexp::List { .. } => None,
    }
}

/// The number that digits stand for, or nothing where it passes 128 bits with a sign.
pub fn number(digits: &[u8]) -> Option<i128>
    ensures { result ≡ spec.number_in digits.now }
{
    match value(digits) {
        Some(number) if number <= i128::MAX as u128 => Some(number as i128),
        _ => None,
    }
}

fn digits_in(kind: AtomKind, text: &[u8]) -> Option<&[u8]>
    ensures { option_copied result ≡ form.digits_in kind text.now }
{
    match kind {
        AtomKind::Numeral => Some(text),
        _ => None,
    }
}

/// The string that an atom is, with its quotes. None for anything else.
#[tactic(auto, unfolding(strat_text::specs::Form::form_of))]
pub fn string<'a>(bytes: &'a [u8], sexp: &Sexp) -> Option<&'a [u8]>
    ensures { option_copied result ≡ spec.string_of (form.form_of bytes.now sexp.now) }
{
    match sexp {
        Sexp::Atom { kind, start, end } => string_in(*kind, text_at(bytes, *start, *end)),
        Sexp::List { .. } => None,
    }
}

fn string_in(kind: AtomKind, text: &[u8]) -> Option<&[u8]>
    ensures { option_copied result ≡ spec.string_in kind text.now }
{
    match kind {
        AtomKind::Text => Some(text),
        _ => None,
    }
}

fn keyword_in(kind: AtomKind, text: &[u8]) -> Option<&[u8]>
    ensures { option_copied result ≡ spec.keyword_in kind text.now }
{
    match kind {
        AtomKind::Keyword => Some(text),
        _ => None,
    }
}

/// Whether an s-expression may be a term.
#[tactic(auto, unfolding(strat_text::specs::Form::form_of))]
pub fn may_be_term(bytes: &[u8], sexp: &Sexp) -> bool
    ensures { result ≡ spec.may_be_term (form.form_of bytes.now sexp.now) }
{
    match sexp {
        Sexp::Atom { kind, .. } => is_term_kind(*kind),
        Sexp::List { .. } => true,
    }
}

fn is_term_kind(kind: AtomKind) -> bool
    ensures { result ≡ spec.is_term_kind kind }
{
    match kind {
        AtomKind::Symbol | AtomKind::Quoted | AtomKind::Numeral => true,
        _ => false,
    }
}

/// Whether each of the s-expressions may be a term.
pub fn may_be_terms(bytes: &[u8], items: &[Sexp]) -> bool
    ensures { result ≡ spec.may_be_terms (form.forms_of bytes.now items.now) }
{
    for item in items {
        if !may_be_term(bytes, item) {
            return false;
        }
    }
    true
}

/// Whether a name may have this text.
pub fn is_name_text(text: &[u8]) -> bool
    ensures test { result ≡ spec.is_name_text text.now }
    ensures allowed { IsTrue result → IsNameText text.now }
{
    Name::allows(text)
}

/// Whether two texts are one.
pub(crate) fn same(a: &[u8], b: &[u8]) -> bool
    ensures { result ≡ bytes_eq a.now b.now }
{
    a == b
}
