//! The children of a term.
ghost use Rattle.std.specs.Prelude.{◌≡◌, ◌<◌, length, slice_index, IfOk};
ghost use Rattle.qterm.specs.Kids.{ids, replace};

use crate::term::{Term, TermId, TermIds};
use std::alloc::{AllocError, Global};

impl Term {
    /// How many children there are.
    pub fn count(&self) -> usize
        ensures { result ≡ length (ids self.now) }
    {
        match self {
            Term::True | Term::False | Term::Var(_) | Term::Num(_) => 0,
            Term::Scale(_, _) | Term::Not(_) => 1,
            Term::Le(_, _) | Term::Eq(_, _) | Term::Iff(_, _) => 2,
            Term::Ite(_, _, _) => 3,
            Term::Sum(all) | Term::And(all) | Term::Or(all) => all.as_slice().len(),
        }
    }

    /// The child at a place, counted from 0.
    pub fn child(&self, at: usize) -> TermId
        requires within { at < length (ids self.now) }
        ensures { result ≡ slice_index (ids self.now) at }
    {
        match self {
            Term::Sum(all) | Term::And(all) | Term::Or(all) => all.as_slice()[at],
            Term::Scale(_, a) | Term::Not(a) => *a,
            Term::Le(a, b) | Term::Eq(a, b) | Term::Iff(a, b) => if at == 0 { *a } else { *b },
            Term::Ite(condition, a, b) => if at == 0 {
                *condition
            } else if at == 1 {
                *a
            } else {
                *b
            },
            Term::True | Term::False | Term::Var(_) | Term::Num(_) => unreachable!(),
        }
    }

    /// The term with the same head and with these children, which are as many as its own.
    pub fn with_children(&self, alloc: Global, children: &[TermId]) -> Result<Term, AllocError>
        requires all { length children.now ≡ length (ids self.now) }
        ensures { IfOk result (λ term. term ≡ replace self.now children.now) }
    {
        match self {
            Term::True => Ok(Term::True),
            Term::False => Ok(Term::False),
            Term::Var(name) => Ok(Term::Var(name.clone()?)),
            Term::Num(value) => Ok(Term::Num(*value)),
            Term::Sum(_) => Ok(Term::Sum(listed(alloc, children)?)),
            Term::Scale(by, _) => Ok(Term::Scale(*by, children[0])),
            Term::Le(_, _) => Ok(Term::Le(children[0], children[1])),
            Term::Eq(_, _) => Ok(Term::Eq(children[0], children[1])),
            Term::Iff(_, _) => Ok(Term::Iff(children[0], children[1])),
            Term::Not(_) => Ok(Term::Not(children[0])),
            Term::And(_) => Ok(Term::And(listed(alloc, children)?)),
            Term::Or(_) => Ok(Term::Or(listed(alloc, children)?)),
            Term::Ite(_, _, _) => Ok(Term::Ite(children[0], children[1], children[2])),
        }
    }
}

/// A list with these ids.
fn listed(alloc: Global, ids: &[TermId]) -> Result<TermIds, AllocError>
    ensures { IfOk result (λ list. list ≡ ids.now) }
{
    Ok(TermIds::from_vec(Vec::from_slice(alloc, ids)?))
}
