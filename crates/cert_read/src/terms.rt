//! Terms from their lines.
ghost use Rattle.std.specs.Prelude.{All, OnOk};
ghost use Rattle.qterm.specs.Store.{Has, Extends};

use crate::fault::Fault;
use crate::heads::{Head, head_of};
use crate::lines::Lines;
use crate::words::Words;
use qterm::{Sort, Store, Term, TermId, TermIds};
use std::alloc::Global;

/// Reads the line of a term behind its first word.
pub(crate) fn take_term(
    alloc: Global,
    store: &mut Store,
    lines: &mut Lines,
    words: &mut Words<'_>,
) -> Result<(), Fault>
    requires lines { All (Has store.old) lines.old.ids.keys }
    ensures extends { Extends store.old store.new }
    ensures lines { OnOk result (All (Has store.new) lines.new.ids.keys) }
{
    let term = read_term(alloc, lines, words)?;
    words.end()?;
    let term_depth = lines.depth_over(&term);
    if !store.fits(&term) {
        return Err(Fault::Malformed);
    }
    let id = store.intern(term)?;
    lines.add(id, term_depth)
}

/// The term of a line.
fn read_term(alloc: Global, lines: &Lines, words: &mut Words<'_>) -> Result<Term, Fault> {
    let head = head_of(words.word()?).ok_or(Fault::Malformed)?;
    match head {
        Head::True => Ok(Term::True),
        Head::False => Ok(Term::False),
        Head::Bool => Ok(Term::Var(words.name(alloc, Sort::Bool)?)),
        Head::Int => Ok(Term::Var(words.name(alloc, Sort::Int)?)),
        Head::Num => Ok(Term::Num(words.integer()?)),
        Head::Sum => Ok(Term::Sum(children(alloc, lines, words)?)),
        Head::Scale => {
            let by = words.integer()?;
            Ok(Term::Scale(by, lines.reference(words)?))
        }
        Head::Not => Ok(Term::Not(lines.reference(words)?)),
        Head::And => Ok(Term::And(children(alloc, lines, words)?)),
        Head::Or => Ok(Term::Or(children(alloc, lines, words)?)),
        Head::Le | Head::Eq | Head::Iff | Head::Ite => read_over(lines, words, head),
    }
}

/// The term of a line with two or three children.
fn read_over(lines: &Lines, words: &mut Words<'_>, head: Head) -> Result<Term, Fault> {
    let a = lines.reference(words)?;
    let b = lines.reference(words)?;
    match head {
        Head::Le => Ok(Term::Le(a, b)),
        Head::Eq => Ok(Term::Eq(a, b)),
        Head::Iff => Ok(Term::Iff(a, b)),
        _ => Ok(Term::Ite(a, b, lines.reference(words)?)),
    }
}

/// Children up to the end.
fn children(alloc: Global, lines: &Lines, words: &mut Words<'_>) -> Result<TermIds, Fault> {
    let mut all: Vec<TermId> = Vec::new(alloc);
    while !words.is_at_end() {
        all.push(lines.reference(words)?)?;
    }
    Ok(TermIds::from_vec(all))
}
