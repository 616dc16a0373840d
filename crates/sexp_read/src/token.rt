//! Tokens: parentheses, atoms, and the blanks and comments between them.
ghost use Rattle.std.specs.Prelude.{◌≡◌, ◌+◌, ◌<◌, ◌≤◌, ◌^◌, length, slice_index, drop, IfSome};
ghost use Rattle.sexp_read.specs.Token as spec;

use crate::AtomKind;
use crate::lexical::{
    comment_len, is_blank, is_word_byte, quoted_len, text_len, word_kind, word_len,
};

#[derive(Clone, Copy, Debug, PartialEq, Eq)]
pub enum Kind {
    /// A blank or a comment.
    Space,
    Open,
    Close,
    Atom(AtomKind),
    /// No token of the language.
    Wrong,
}

/// The kind of the token at a place, and the place after it.
#[tactic(auto, unfolding(crate::specs::Token::token))]
pub fn token(bytes: &[u8], at: usize) -> (Kind, usize)
    requires { at < length bytes.now }
    ensures kind { result.0 ≡ (spec.token (slice_index bytes.now at) (drop (at + 1) bytes.now)).0 }
    ensures end { result.1 ≡ at + 1 + (spec.token (slice_index bytes.now at) (drop (at + 1) bytes.now)).1 }
    ensures within { (at < result.1) × (result.1 ≤ length bytes.now) }
{
    let byte = bytes[at];
    let rest = &bytes[at + 1..];
    if is_blank(byte) {
        (Kind::Space, at + 1)
    } else if byte == b';' {
        (Kind::Space, at + 1 + comment_len(rest))
    } else if byte == b'(' {
        (Kind::Open, at + 1)
    } else if byte == b')' {
        (Kind::Close, at + 1)
    } else if byte == b'"' {
        closed(AtomKind::Text, text_len(rest), at + 1)
    } else if byte == b'|' {
        closed(AtomKind::Quoted, quoted_len(rest), at + 1)
    } else if is_word_byte(byte) {
        let end = at + 1 + word_len(rest);
        (word_kind(&bytes[at..end]), end)
    } else {
        (Kind::Wrong, at + 1)
    }
}

// The token in quotes or bars whose length behind the opening one this is.
fn closed(kind: AtomKind, len: Option<usize>, at: usize) -> (Kind, usize)
    requires { IfSome len (λ n. at + n < 2 ^ 64) }
    ensures kind { result.0 ≡ (spec.closed kind len).0 }
    ensures end { result.1 ≡ at + (spec.closed kind len).1 }
{
    match len {
        Some(len) => (Kind::Atom(kind), at + len),
        None => (Kind::Wrong, at),
    }
}
