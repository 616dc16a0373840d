//! The s-expression at a place, by a stack of the lists that are open there.
ghost use Rattle.std.specs.Prelude.{◌≡◌, ◌≤◌, ℕ, drop, length, IfOk, IfSome, [], reverse};
ghost use Rattle.sexp_read.specs.Atoms.{EndsItem};
ghost use Rattle.sexp_read.specs.Faults.{HasReason};
ghost use Rattle.sexp_read.specs.Sexp as spec;
ghost use Rattle.sexp_read.specs.Spelling.{ReadsWhatIsSpelled, SpellsItem};
ghost use Rattle.sexp_read.specs.Token.{tokens};
ghost use Rattle.sexp_read.specs.Written.{HasItsAtoms};

use crate::token::{Kind, token};
use crate::{BadText, Next, Sexp};
use sqlite_items::Items;
use std::alloc::{AllocError, Global};

/// How many lists may be open at a place.
pub const NESTING: usize = 1000;

/// A list whose end has not come, with its items so far.
#[derive(Drop)]
pub struct Frame {
    pub start: usize,
    pub items: Items<Sexp>,
}

/// The s-expression that stands at a place behind blanks and comments, with the place behind it.
///
/// What the tokens from the place on spell is read, and what is read is spelled by them. `End` comes exactly where only blanks and comments follow, and `Bad` at the first fault in reading order:
/// `Lexical` at the first byte of a bad token, which a string or quoted symbol without its end is too, or at a
/// closing parenthesis that closes nothing; `TooDeep` at the 1,001st opening parenthesis that is open at once;
/// `Unclosed`, where the bytes end within a list, at the outermost open parenthesis.
#[tactic(auto, unfolding(crate::specs::Sexp::next_at))]
pub fn next_sexp(alloc: Global, bytes: &[u8], place: usize) -> Result<Next, AllocError>
    requires { place ≤ length bytes.now }
    ensures next { IfOk result (λ next. next ≡ spec.next_at bytes.now place) }
    ensures spelled { IfOk result (SpellsItem (tokens (drop place bytes.now) place)) }
    ensures complete { IfOk result (ReadsWhatIsSpelled (tokens (drop place bytes.now) place)) }
    ensures written { IfOk result (HasItsAtoms bytes.now) }
    ensures reason { IfOk result (HasReason (tokens (drop place bytes.now) place)) }
    ensures ends { IfOk result EndsItem }
    ensures within { IfOk result (spec.EndsWithin place (length bytes.now)) }
{
    let mut frames: Vec<Frame> = Vec::new(alloc);
    let mut at = place;
    while at < bytes.len() {
        let (kind, end) = token(bytes, at);
        if let Some(next) = turn(alloc, &mut frames, kind, at, end)? {
            return Ok(next);
        }
        at = end;
    }
    Ok(at_end(&frames))
}

// Reads one token, and answers where that ends the s-expression.
fn turn(
    alloc: Global,
    frames: &mut Vec<Frame>,
    kind: Kind,
    start: usize,
    end: usize,
) -> Result<Option<Next>, AllocError>
    ensures turns { IfOk result (λ next. spec.Turns (kind, start, end) (reverse frames.old.items) (reverse frames.new.items) next) }
    ensures end { IfOk result (λ next. IfSome next (spec.EndsAt end)) }
{
    match kind {
        Kind::Space => Ok(None),
        Kind::Wrong => Ok(Some(bad(start, BadText::Lexical))),
        Kind::Open => {
            if frames.len() >= NESTING {
                return Ok(Some(bad(start, BadText::TooDeep)));
            }
            let items = Items::new(alloc);
            frames.push(Frame { start, items })?;
            Ok(None)
        }
        Kind::Atom(kind) => {
            let next = place_item(frames, Sexp::Atom { kind, start, end }, end)?;
            Ok(next)
        }
        Kind::Close => match frames.pop() {
            None => Ok(Some(bad(start, BadText::Lexical))),
            Some(Frame { start, items }) => {
                let next = place_item(frames, Sexp::List { items, start, end }, end)?;
                Ok(next)
            }
        },
    }
}

// Puts a whole item into the innermost open list, or answers it where none is open.
fn place_item(frames: &mut Vec<Frame>, item: Sexp, end: usize) -> Result<Option<Next>, AllocError>
    ensures placed { IfOk result (λ next. spec.IsPlaced item end (reverse frames.old.items) (reverse frames.new.items) next) }
    ensures end { IfOk result (λ next. IfSome next (spec.EndsAt end)) }
{
    match frames.pop() {
        None => Ok(Some(Next::Item(item, end))),
        Some(mut frame) => {
            frame.items.push(item)?;
            frames.push(frame)?;
            Ok(None)
        }
    }
}

// What the end of the bytes makes of the lists that are open.
fn at_end(frames: &[Frame]) -> Next
    ensures value { result ≡ spec.read [] (reverse frames.now) }
    ensures end { (low high : ℕ) → spec.EndsWithin low high result }
{
    match frames {
        [] => Next::End,
        [first, ..] => bad(first.start, BadText::Unclosed),
    }
}

fn bad(place: usize, what: BadText) -> Next
    ensures value { result ≡ Next.Bad place what }
    ensures end { (at : ℕ) → spec.EndsAt at result }
    ensures within { (low high : ℕ) → spec.EndsWithin low high result }
{
    Next::Bad { place, what }
}
