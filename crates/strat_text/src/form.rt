//! What s-expressions show of the words and numbers of strategies.
ghost use Rattle.std.specs.Prelude.{◌≡◌, ℕ};
ghost use Rattle.std.specs.Option.{option_copied};
ghost use Rattle.sexp_read.specs.Atoms.{text_at as text_between};
ghost use Rattle.strat_text.specs.Form as spec;
ghost use Rattle.strat_text.specs.Words as words;
ghost use Rattle.strat_text.specs.Number as numbers;
ghost use Rattle.strat_text.specs.Given.{seen};

use crate::number::{Number, negative, positive};
use crate::words::{Head, Operator, head_of, operator_of};
use sexp_read::{AtomKind, Sexp};

/// The bytes from one place to another, none where there are no such.
pub(crate) fn text_at(bytes: &[u8], start: usize, end: usize) -> &[u8]
    ensures { result.now ≡ spec.some_text (text_between bytes.now start end) }
{
    if start <= end && end <= bytes.len() {
        &bytes[start..end]
    } else {
        &[]
    }
}

/// The place of the first byte.
#[tactic(auto, unfolding(crate::specs::Form::form_of))]
pub(crate) fn place(bytes: &[u8], sexp: &Sexp) -> usize
    ensures { result ≡ spec.place_of (spec.form_of bytes.now sexp.now) }
{
    match sexp {
        Sexp::Atom { start, .. } => *start,
        Sexp::List { start, .. } => *start,
    }
}

/// The text of a simple symbol. None for anything else.
#[tactic(auto, unfolding(crate::specs::Form::form_of))]
pub(crate) fn symbol<'a>(bytes: &'a [u8], sexp: &Sexp) -> Option<&'a [u8]>
    ensures { option_copied result ≡ spec.symbol_of (spec.form_of bytes.now sexp.now) }
{
    match sexp {
        Sexp::Atom { kind, start, end } => symbol_text(*kind, text_at(bytes, *start, *end)),
        Sexp::List { .. } => None,
    }
}

fn symbol_text(kind: AtomKind, text: &[u8]) -> Option<&[u8]>
    ensures { option_copied result ≡ spec.symbol_text kind text.now }
{
    match kind {
        AtomKind::Symbol => Some(text),
        _ => None,
    }
}

/// The digits of a numeral. None for anything else.
#[tactic(auto, unfolding(crate::specs::Form::form_of))]
pub(crate) fn digits<'a>(bytes: &'a [u8], sexp: &Sexp) -> Option<&'a [u8]>
    ensures { option_copied result ≡ spec.digits_of (spec.form_of bytes.now sexp.now) }
{
    match sexp {
        Sexp::Atom { kind, start, end } => digits_in(*kind, text_at(bytes, *start, *end)),
        Sexp::List { .. } => None,
    }
}

fn digits_in(kind: AtomKind, text: &[u8]) -> Option<&[u8]>
    ensures { option_copied result ≡ spec.digits_in kind text.now }
{
    match kind {
        AtomKind::Numeral => Some(text),
        _ => None,
    }
}

/// The head that a symbol is.
pub(crate) fn head_in(bytes: &[u8], sexp: &Sexp) -> Option<Head>
    ensures { result ≡ words.head_in (spec.form_of bytes.now sexp.now) }
{
    match symbol(bytes, sexp) {
        Some(word) => head_of(word),
        None => None,
    }
}

/// The operator that a symbol is.
pub(crate) fn operator_in(bytes: &[u8], sexp: &Sexp) -> Option<Operator>
    ensures { result ≡ words.operator_in (spec.form_of bytes.now sexp.now) }
{
    match symbol(bytes, sexp) {
        Some(word) => operator_of(word),
        None => None,
    }
}

/// The number behind a minus, whose arguments these are.
#[tactic(auto, using(crate::proofs::Levels::minus_of_more))]
pub(crate) fn minus(bytes: &[u8], args: &[Sexp]) -> Number
    ensures { result ≡ seen (numbers.minus_of (spec.forms_of bytes.now args.now)) }
{
    match args {
        [] => Number::Absent,
        [only] => match digits(bytes, only) {
            Some(digits) => negative(digits),
            None => Number::Absent,
        },
        _ => Number::Absent,
    }
}

/// The number that a numeral, or `(- numeral)`, stands for.
#[tactic(auto, using(crate::proofs::Levels::form_of_atom, crate::proofs::Levels::form_of_list))]
pub(crate) fn number(bytes: &[u8], sexp: &Sexp) -> Number
    ensures { result ≡ seen (numbers.number_of (spec.form_of bytes.now sexp.now)) }
{
    match sexp {
        Sexp::Atom { kind, start, end } => numeral(*kind, text_at(bytes, *start, *end)),
        Sexp::List { items, .. } => signed(bytes, items.as_slice()),
    }
}

fn numeral(kind: AtomKind, text: &[u8]) -> Number
    ensures { result ≡ seen (numbers.positive (spec.numeral_value kind text.now)) }
{
    match kind {
        AtomKind::Numeral => positive(text),
        _ => Number::Absent,
    }
}

fn signed(bytes: &[u8], items: &[Sexp]) -> Number
    ensures { (place : ℕ) → result ≡ seen (numbers.number_of (spec.list (spec.forms_of bytes.now items.now) place)) }
{
    match items {
        [head, args @ ..] => match operator_in(bytes, head) {
            Some(Operator::Minus) => minus(bytes, args),
            _ => Number::Absent,
        },
        [] => Number::Absent,
    }
}
