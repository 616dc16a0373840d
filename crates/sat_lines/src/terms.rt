//! Numbered clauses as terms.
ghost use Rattle.std.specs.Prelude.{◌≡◌, ◌<◌, ℕ, All, IfOk, length, map};
ghost use Rattle.qterm.specs.declared.name.Name.{Name};
ghost use Rattle.qterm.specs.declared.name.Sort.TheVariants as sort;
ghost use Rattle.qterm.specs.Store.{HasSort, Shows, Extends, trees_of};
ghost use Rattle.sat_clauses.specs.Coding.{AreBelow};
ghost use Rattle.sat_lines.specs.Terms.{lit_tree, clause_tree, StandFor};

use qterm::{Store, Term, TermId, TermIds};
use rup::Lit;
use sat_clauses::Numbers;
use std::alloc::{AllocError, Global};

/// The term of a clause over numbered names: `false`, or the disjunction of its literals.
pub fn clause_term(
    alloc: Global,
    store: &mut Store,
    numbers: &Numbers,
    clause: &[Lit],
) -> Result<TermId, AllocError>
    requires vars { All (HasSort sort.Bool store.old) numbers.now }
    requires below { AreBelow (length numbers.now) clause.now }
    ensures shows { IfOk result (λ id. (f : ℕ → Name) → StandFor store.old numbers.now f → Shows store.new id (clause_tree f clause.now)) }
    ensures extends { Extends store.old store.new }
{
    if clause.is_empty() {
        let id = store.intern(Term::False)?;
        return Ok(id);
    }
    let ids = literals(alloc, store, numbers, clause)?;
    let whole = store.intern(Term::Or(TermIds::from_vec(ids)))?;
    Ok(whole)
}

/// The terms of literals.
fn literals(
    alloc: Global,
    store: &mut Store,
    numbers: &Numbers,
    clause: &[Lit],
) -> Result<Vec<TermId>, AllocError>
    requires vars { All (HasSort sort.Bool store.old) numbers.now }
    requires below { AreBelow (length numbers.now) clause.now }
    ensures trees { IfOk result (λ v. (f : ℕ → Name) → StandFor store.old numbers.now f → trees_of store.new v.items ≡ map (lit_tree f) clause.now) }
    ensures sorts { IfOk result (λ v. All (HasSort sort.Bool store.new) v.items) }
    ensures extends { Extends store.old store.new }
{
    let mut ids = Vec::with_capacity(alloc, clause.len())?;
    for lit in clause {
        let id = lit_term(store, numbers, *lit)?;
        ids.push(id)?;
    }
    Ok(ids)
}

/// The term of a literal.
fn lit_term(store: &mut Store, numbers: &Numbers, lit: Lit) -> Result<TermId, AllocError>
    requires vars { All (HasSort sort.Bool store.old) numbers.now }
    requires below { lit.var < length numbers.now }
    ensures shows { IfOk result (λ id. (f : ℕ → Name) → StandFor store.old numbers.now f → Shows store.new id (lit_tree f lit)) }
    ensures sort { IfOk result (HasSort sort.Bool store.new) }
    ensures extends { Extends store.old store.new }
{
    let var = numbers.id(lit.var);
    if lit.positive {
        Ok(var)
    } else {
        let id = store.intern(Term::Not(var))?;
        Ok(id)
    }
}
