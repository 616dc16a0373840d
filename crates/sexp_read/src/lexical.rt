//! The lexical rules of SMT-LIB 2.6: bytes, words, and where a token ends.
ghost use Rattle.std.specs.Prelude.{◌≡◌, ◌≤◌, length, drop, IfSome};
ghost use Rattle.std.specs.Char.{is_ascii_digit, is_ascii_hexdigit};
ghost use Rattle.std.specs.List.{prefix_len, position_or_len, list_all};
ghost use Rattle.sexp_read.specs.Lexical as spec;
ghost use Rattle.sexp_read.specs.Token.{word_kind as kind_of_word};

use crate::AtomKind;
use crate::token::Kind;

pub fn is_blank(byte: u8) -> bool
    ensures { result ≡ spec.is_blank byte }
{
    byte == b' ' || byte == b'\t' || byte == b'\n' || byte == b'\r'
}

fn is_comment_byte(byte: u8) -> bool
    ensures { result ≡ spec.is_comment_byte byte }
{
    byte != b'\n' && byte != b'\r'
}

fn is_mark(byte: u8) -> bool
    ensures { result ≡ spec.is_mark byte }
{
    matches!(
        byte,
        b'~' | b'!'
            | b'@'
            | b'$'
            | b'%'
            | b'^'
            | b'&'
            | b'*'
            | b'_'
            | b'-'
            | b'+'
            | b'='
            | b'<'
            | b'>'
            | b'.'
            | b'?'
            | b'/'
    )
}

fn is_symbol_byte(byte: u8) -> bool
    ensures { result ≡ spec.is_symbol_byte byte }
{
    byte.is_ascii_alphanumeric() || is_mark(byte)
}

pub fn is_word_byte(byte: u8) -> bool
    ensures { result ≡ spec.is_word_byte byte }
{
    is_symbol_byte(byte) || byte == b'#' || byte == b':'
}

fn is_text_byte(byte: u8) -> bool
    ensures { result ≡ spec.is_text_byte byte }
{
    !byte.is_ascii_control() || byte == b'\t' || byte == b'\n' || byte == b'\r'
}

fn is_quoted_byte(byte: u8) -> bool
    ensures { result ≡ spec.is_quoted_byte byte }
{
    is_text_byte(byte) && byte != b'|' && byte != b'\\'
}

/// How many bytes belong to a comment that has begun.
pub fn comment_len(bytes: &[u8]) -> usize
    ensures len { result ≡ prefix_len spec.is_comment_byte bytes.now }
    ensures within { result ≤ length bytes.now }
{
    bytes.iter().take_while(|b| is_comment_byte(**b)).count()
}

/// How many bytes belong to a word that has begun.
pub fn word_len(bytes: &[u8]) -> usize
    ensures len { result ≡ prefix_len spec.is_word_byte bytes.now }
    ensures within { result ≤ length bytes.now }
{
    bytes.iter().take_while(|b| is_word_byte(**b)).count()
}

/// How many bytes belong to a string whose opening quote stands before them, if it ends.
pub fn text_len(bytes: &[u8]) -> Option<usize>
    ensures len { result ≡ spec.text_len bytes.now }
    ensures within { IfSome result (λ len. len ≤ length bytes.now) }
{
    let mut at = 0;
    while at < bytes.len() {
        let byte = bytes[at];
        if byte == b'"' {
            if at + 1 >= bytes.len() || bytes[at + 1] != b'"' {
                return Some(at + 1);
            }
            at += 2;
        } else if is_text_byte(byte) {
            at += 1;
        } else {
            return None;
        }
    }
    None
}

/// How many bytes belong to a quoted symbol whose opening bar stands before them, if it ends.
pub fn quoted_len(bytes: &[u8]) -> Option<usize>
    ensures len { result ≡ spec.quoted_len bytes.now }
    ensures within { IfSome result (λ len. len ≤ length bytes.now) }
{
    for (at, byte) in bytes.iter().enumerate() {
        if *byte == b'|' {
            return Some(at + 1);
        }
        if !is_quoted_byte(*byte) {
            return None;
        }
    }
    None
}

fn are_symbol_bytes(bytes: &[u8]) -> bool
    ensures { result ≡ list_all spec.is_symbol_byte bytes.now }
{
    bytes.iter().all(|b| is_symbol_byte(*b))
}

fn are_digits(bytes: &[u8]) -> bool
    ensures { result ≡ list_all is_ascii_digit bytes.now }
{
    bytes.iter().all(|b| b.is_ascii_digit())
}

fn are_hexadecimal_digits(bytes: &[u8]) -> bool
    ensures { result ≡ list_all is_ascii_hexdigit bytes.now }
{
    bytes.iter().all(|b| b.is_ascii_hexdigit())
}

fn are_binary_digits(bytes: &[u8]) -> bool
    ensures { result ≡ list_all spec.is_binary_digit bytes.now }
{
    bytes.iter().all(|b| *b == b'0' || *b == b'1')
}

/// Whether the bytes are a simple symbol: letters, digits and `~!@$%^&*_-+=<>.?/`, at least one, the first no digit.
pub fn is_simple_symbol(word: &[u8]) -> bool
    ensures { result ≡ spec.is_simple_symbol word.now }
{
    match word {
        [] => false,
        [first, ..] => !first.is_ascii_digit() && are_symbol_bytes(word),
    }
}

fn is_numeral(word: &[u8]) -> bool
    ensures { result ≡ spec.is_numeral word.now }
{
    match word {
        [] => false,
        [digit] => digit.is_ascii_digit(),
        [first, ..] => *first != b'0' && are_digits(word),
    }
}

fn is_decimal(word: &[u8]) -> bool
    ensures { result ≡ spec.is_decimal word.now }
{
    let dot = dot_place(word);
    is_numeral(&word[..dot]) && is_fraction(&word[dot..])
}

// The place of the first dot, or the length of the word where there is none.
fn dot_place(word: &[u8]) -> usize
    ensures place { result ≡ position_or_len spec.is_dot word.now }
    ensures within { result ≤ length word.now }
{
    word.iter().take_while(|b| **b != b'.').count()
}

// Whether digits stand behind the first of these bytes, at least one.
fn is_fraction(bytes: &[u8]) -> bool
    ensures { result ≡ spec.all_of is_ascii_digit (drop 1 bytes.now) }
{
    match bytes {
        [_, first, ..] => first.is_ascii_digit() && are_digits(&bytes[1..]),
        _ => false,
    }
}

fn is_bits(word: &[u8]) -> bool
    ensures { result ≡ spec.is_bits word.now }
{
    match word {
        [mark, base, digits @ ..] => *mark == b'#' && has_digits(*base, digits),
        _ => false,
    }
}

// Whether these are digits, at least one, of a base: `x` or `b`.
fn has_digits(base: u8, digits: &[u8]) -> bool
    ensures { result ≡ spec.has_digits base digits.now }
{
    if digits.is_empty() {
        false
    } else if base == b'x' {
        are_hexadecimal_digits(digits)
    } else {
        base == b'b' && are_binary_digits(digits)
    }
}

fn is_keyword(word: &[u8]) -> bool
    ensures { result ≡ spec.is_keyword word.now }
{
    match word {
        [colon, name @ ..] => *colon == b':' && is_simple_symbol(name),
        [] => false,
    }
}

/// The kind of a word.
#[tactic(auto, unfolding(crate::specs::Token::word_kind))]
pub fn word_kind(word: &[u8]) -> Kind
    ensures { result ≡ kind_of_word word.now }
{
    if is_simple_symbol(word) {
        Kind::Atom(AtomKind::Symbol)
    } else if is_numeral(word) {
        Kind::Atom(AtomKind::Numeral)
    } else if is_decimal(word) {
        Kind::Atom(AtomKind::Decimal)
    } else if is_bits(word) {
        Kind::Atom(AtomKind::Bits)
    } else if is_keyword(word) {
        Kind::Atom(AtomKind::Keyword)
    } else {
        Kind::Wrong
    }
}
