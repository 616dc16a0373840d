//! Lemmas as terms.
ghost use Rattle.std.specs.Prelude.{◌≡◌, All, IfOk, OnOk, [], length};
ghost use Rattle.std.specs.List.{list_all};
ghost use Rattle.qterm.specs.Store.{Has, Extends, trees_of};
ghost use Rattle.sat_core.specs.Clauses.{below};
ghost use Rattle.sat_clauses.specs.Coding.{name_at};
ghost use Rattle.sat_lines.specs.Terms.{StandFor};
ghost use Rattle.sat_lines.specs.Lines.{line_trees, LinesBelow};
ghost use Rattle.reducer_iface.specs.Lemmas.{AreLemmas};
ghost use Rattle.sat_answers.specs.Coded.{AreLearnt};

use qterm::{Store, TermId, TermIds};
use rup::Lit;
use sat_clauses::Numbers;
use sat_core::RupLine;
use sat_lines::clause_term;
use sat_rows::lines_are_lemmas;
use std::alloc::{AllocError, Global};

/// The lemmas that lines were learnt as, as terms.
///
/// Want of memory stands for a line with a variable that isn't one of the numbers.
pub fn told(
    alloc: Global,
    store: &mut Store,
    numbers: &Numbers,
    _list: &[TermId],
    lines: &[RupLine],
) -> Result<TermIds, AllocError>
    requires learnt { AreLearnt store.old numbers.now (trees_of store.old _list.now) lines.now }
    ensures lemmas { IfOk result (λ ids. AreLemmas (trees_of store.old _list.now) [] (trees_of store.new ids)) }
    ensures count { IfOk result (λ ids. length (trees_of store.new ids) ≡ length lines.now) }
    ensures has { IfOk result (λ ids. All (Has store.new) ids) }
    ensures extends { Extends store.old store.new }
{
    lines_are_lemmas();
    check_within(numbers, lines)?;
    let terms = lemma_terms(alloc, store, numbers, lines)?;
    Ok(terms)
}

/// Lines over other variables than the numbers count as want of memory.
pub(crate) fn check_within(numbers: &Numbers, lines: &[RupLine]) -> Result<(), AllocError>
    ensures { OnOk result (LinesBelow (length numbers.now) lines.now) }
{
    if are_within(numbers.count(), lines) {
        Ok(())
    } else {
        Err(AllocError)
    }
}

/// The terms of the lines' clauses, in order.
fn lemma_terms(
    alloc: Global,
    store: &mut Store,
    numbers: &Numbers,
    lines: &[RupLine],
) -> Result<TermIds, AllocError>
    requires stand { StandFor store.old numbers.now (name_at store.old numbers.now) }
    requires below { LinesBelow (length numbers.now) lines.now }
    ensures trees { IfOk result (λ ids. trees_of store.new ids ≡ line_trees (name_at store.old numbers.now) lines.now) }
    ensures has { IfOk result (λ ids. All (Has store.new) ids) }
    ensures extends { Extends store.old store.new }
{
    let mut ids = Vec::with_capacity(alloc, lines.len())?;
    for line in lines {
        let id = clause_term(alloc, store, numbers, line.clause.lits())?;
        ids.push(id)?;
    }
    Ok(TermIds::from_vec(ids))
}

/// Whether the lines are over the variables below that number.
fn are_within(vars: u32, lines: &[RupLine]) -> bool
    ensures { result ≡ list_all (λ line. below vars line.clause) lines.now }
{
    lines.iter().all(|line| is_within(vars, line.clause.lits()))
}

/// Whether the clause is over the variables below that number.
fn is_within(vars: u32, clause: &[Lit]) -> bool
    ensures { result ≡ below vars clause.now }
{
    clause.iter().all(|l| l.var < vars)
}
