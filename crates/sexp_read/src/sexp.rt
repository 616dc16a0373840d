//! S-expressions, with the places where they stand.
ghost use Rattle.std.specs.Prelude.{◌≡◌};
ghost use Rattle.std.specs.Option.{option_copied};
ghost use Rattle.sexp_read.specs.Atoms as spec;

use sqlite_items::Items;

/// What an atom is, by the lexical rules of SMT-LIB 2.6.
#[derive(Clone, Copy, Debug, PartialEq, Eq)]
pub enum AtomKind {
    /// A simple symbol, reserved words among them.
    Symbol,
    /// A symbol between bars.
    Quoted,
    /// A numeral without sign.
    Numeral,
    /// A numeral, a dot and digits.
    Decimal,
    /// A number that begins with `#x` or `#b`.
    Bits,
    /// A string between quotes.
    Text,
    /// A colon and a simple symbol.
    Keyword,
}

/// An atom or a list, with the places of its first byte and behind its last one.
#[derive(Drop)]
pub enum Sexp {
    Atom {
        kind: AtomKind,
        start: usize,
        end: usize,
    },
    List {
        items: Items<Sexp>,
        start: usize,
        end: usize,
    },
}

/// What is wrong at a place: a bad token, a list without its end, or the 1,001st list round a place.
#[derive(Clone, Copy, Debug, PartialEq, Eq)]
pub enum BadText {
    Lexical,
    Unclosed,
    TooDeep,
}

/// What stands at a place: an s-expression with the place behind it, the end of the bytes, or a fault.
#[derive(Drop)]
pub enum Next {
    Item(Sexp, usize),
    End,
    Bad { place: usize, what: BadText },
}

impl Sexp {
    ghost use Rattle.sexp_read.specs.Atoms.{kind_of, start_of, end_of};

    /// The kind of an atom.
    #[tactic(auto, unfolding(crate::specs::Atoms::kind_of))]
    pub fn kind(&self) -> Option<AtomKind>
        ensures { result ≡ kind_of self.now }
    {
        match self {
            Sexp::Atom { kind, .. } => Some(*kind),
            Sexp::List { .. } => None,
        }
    }

    /// The place of the first byte.
    #[tactic(auto, unfolding(crate::specs::Atoms::start_of))]
    pub fn start(&self) -> usize
        ensures { result ≡ start_of self.now }
    {
        match self {
            Sexp::Atom { start, .. } => *start,
            Sexp::List { start, .. } => *start,
        }
    }

    /// The place behind the last byte.
    #[tactic(auto, unfolding(crate::specs::Atoms::end_of))]
    pub fn end(&self) -> usize
        ensures { result ≡ end_of self.now }
    {
        match self {
            Sexp::Atom { end, .. } => *end,
            Sexp::List { end, .. } => *end,
        }
    }
}

// The bytes from one place to another, where there are such.
fn text_at(bytes: &[u8], start: usize, end: usize) -> Option<&[u8]>
    ensures { option_copied result ≡ spec.text_at bytes.now start end }
{
    if start <= end && end <= bytes.len() {
        Some(&bytes[start..end])
    } else {
        None
    }
}

/// The bytes of an atom that was read from `bytes`, with its bars, quotes or colon. None for a list.
#[tactic(auto, unfolding(crate::specs::Atoms::atom_text))]
pub fn atom_text<'a>(bytes: &'a [u8], sexp: &Sexp) -> Option<&'a [u8]>
    ensures { option_copied result ≡ spec.atom_text bytes.now sexp.now }
{
    match sexp {
        Sexp::Atom { start, end, .. } => text_at(bytes, *start, *end),
        Sexp::List { .. } => None,
    }
}

/// The name that a symbol stands for: `a` both for `a` and for `|a|`. None for anything else.
#[tactic(auto, unfolding(crate::specs::Atoms::symbol_name))]
pub fn symbol_name<'a>(bytes: &'a [u8], sexp: &Sexp) -> Option<&'a [u8]>
    ensures { option_copied result ≡ spec.symbol_name bytes.now sexp.now }
{
    match sexp {
        Sexp::Atom { kind, start, end } => name_at(bytes, *kind, *start, *end),
        Sexp::List { .. } => None,
    }
}

// The name of a symbol of this kind between these places.
fn name_at(bytes: &[u8], kind: AtomKind, start: usize, end: usize) -> Option<&[u8]>
    ensures { option_copied result ≡ spec.name_at bytes.now kind start end }
{
    match kind {
        AtomKind::Symbol => text_at(bytes, start, end),
        AtomKind::Quoted if start < end && end <= bytes.len() => text_at(bytes, start + 1, end - 1),
        _ => None,
    }
}
