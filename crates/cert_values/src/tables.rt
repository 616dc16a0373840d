//! The rule `table`: a clause over few names that follows by a truth table.
ghost use Rattle.std.specs.Prelude.{◌≡◌, ◌^◌, ◌-◌, ◌&&◌, length, All, IfOk, Some, slice_index_or, not, nat_eq};
ghost use Rattle.std.specs.List.{AllZip};
ghost use Rattle.std.specs.Int.Bits.{bit_and, bit_or, bit_xor};
ghost use Rattle.qterm.specs.Tree.{Not};
ghost use Rattle.qterm.specs.Kids.{kids, listed};
ghost use Rattle.qterm.specs.Store.{Extends, Has, tree_at, trees_at};
ghost use Rattle.tac_cert.specs.Names as texts;
ghost use Rattle.tac_cert.specs.Tables as tables;
ghost use Rattle.cert_items.specs.Held.{IfIn, shown_some};
ghost use Rattle.cert_items.specs.State.{IsState, items_of};
ghost use Rattle.cert_values.specs.FewNames.{ids_of, is_among, and_all, or_all, IsTable, IsFollowing, IsLitOver, AreLitsOver, IsClauseOver};

use crate::few::{Few, column, few_names, is_among, rows};
use cert_items::{Held, State, formula_at, is_int, one};
use qterm::{Name, Store, Term, TermId};
use qwalk::{Scan, scan_terms};
use sqlite_items::Items;
use std::alloc::{AllocError, Global};

/// The other rows, of 32.
fn flipped(rows: u32) -> u32
    ensures { result ≡ bit_xor rows (2 ^ 32 - 1) }
{
    rows ^ u32::MAX
}

/// The answer at a place, or no row.
fn out_at(outs: &[u32], at: usize) -> u32
    ensures { result ≡ slice_index_or outs.now at 0 }
{
    if at < outs.len() { outs[at] } else { 0 }
}

/// The rows in which the first two answers are the same.
fn are_same(outs: &[u32]) -> u32
    ensures { result ≡ bit_xor (bit_xor (slice_index_or outs.now 0 0) (slice_index_or outs.now 1 0)) (2 ^ 32 - 1) }
{
    flipped(out_at(outs, 0) ^ out_at(outs, 1))
}

/// The rows in which the first answer is no.
fn is_not(outs: &[u32]) -> u32
    ensures { result ≡ bit_xor (slice_index_or outs.now 0 0) (2 ^ 32 - 1) }
{
    flipped(out_at(outs, 0))
}

/// The rows in which the second or the third answer is yes, as the first says.
fn chosen(outs: &[u32]) -> u32
    ensures { result ≡ bit_or (bit_and (slice_index_or outs.now 0 0) (slice_index_or outs.now 1 0)) (bit_and (bit_xor (slice_index_or outs.now 0 0) (2 ^ 32 - 1)) (slice_index_or outs.now 2 0)) }
{
    let first = out_at(outs, 0);
    (first & out_at(outs, 1)) | (flipped(first) & out_at(outs, 2))
}

/// The rows in which all answers are yes.
#[tactic(auto, using(crate::proofs::Masks::and_next, crate::proofs::Masks::and_done))]
fn all_true(outs: &[u32]) -> u32
    ensures { result ≡ and_all (2 ^ 32 - 1) outs.now }
{
    let mut rows = u32::MAX;
    for out in outs {
        rows = rows & *out;
    }
    rows
}

/// The rows in which one of the answers is yes.
#[tactic(auto, using(crate::proofs::Masks::or_next, crate::proofs::Masks::or_done))]
fn any_true(outs: &[u32]) -> u32
    ensures { result ≡ or_all 0 outs.now }
{
    let mut rows = 0;
    for out in outs {
        rows = rows | *out;
    }
    rows
}

/// The rows in which a term is true, from the answers for its children.
#[tactic(auto, using(crate::proofs::Rowing::of_true, crate::proofs::Rowing::of_false, crate::proofs::Rowing::of_name, crate::proofs::Rowing::of_and, crate::proofs::Rowing::of_or, crate::proofs::Rowing::of_int))]
fn truths_at(few: &Few, store: &Store, id: TermId, outs: &[u32]) -> u32
    requires has { Has store.now id }
    requires children { AllZip (IsTable store.now (ids_of few.now)) (listed (kids (tree_at store.now id))) outs.now }
    ensures { IsTable store.now (ids_of few.now) (tree_at store.now id) result }
{
    store.is_distinct();
    match store.view(id) {
        Term::True => u32::MAX,
        Term::False => 0,
        Term::Var(_) => column(few, id),
        Term::Iff(_, _) => are_same(outs),
        Term::Not(_) => is_not(outs),
        Term::And(_) => all_true(outs),
        Term::Or(_) => any_true(outs),
        Term::Ite(_, _, _) => chosen(outs),
        Term::Num(_) | Term::Sum(_) | Term::Scale(_, _) | Term::Le(_, _) | Term::Eq(_, _) => 0,
    }
}

/// The scan for the truth in all rows.
#[derive(Drop)]
struct Rows<'a> {
    few: &'a Few,
}

impl Scan<u32> for Rows<'_> {
    type Task = Few;

    ghost task = { λ r. r.few.now };

    ghost right = { λ r ts t m. IsTable ts (ids_of r.few.now) t m };

    fn node(&mut self, store: &Store, id: TermId, outs: &[u32]) -> Result<u32, AllocError> {
        Ok(truths_at(self.few, store, id, outs))
    }
}

/// The rows in which a formula is true. Each distinct subterm is asked once, for all rows.
fn truths_in(alloc: Global, store: &Store, few: &Few, id: TermId) -> Result<u32, AllocError>
    requires has { Has store.now id }
    ensures { IfOk result (IsTable store.now (ids_of few.now) (tree_at store.now id)) }
{
    let mut scan = Rows { few };
    let found = scan_terms(alloc, store, &mut scan, id)?;
    Ok(found)
}

/// Whether each row of the names that is one of the first is one of the second too.
fn are_within(few: &Few, first: u32, second: u32) -> bool
    ensures { result ≡ nat_eq (bit_and (bit_and first (bit_xor second (2 ^ 32 - 1))) (2 ^ (2 ^ length (ids_of few.now)) - 1)) 0 }
{
    let apart = first & flipped(second) & rows(few);
    apart == 0
}

/// Whether the clause is true in each row in which the formula is.
#[tactic(auto, using(crate::proofs::Rowing::follows_rows))]
fn follows(
    alloc: Global,
    store: &Store,
    few: &Few,
    id: TermId,
    clause: TermId,
) -> Result<bool, AllocError>
    requires has { Has store.now id }
    requires clause { Has store.now clause }
    ensures { IfOk result (IsFollowing store.now (ids_of few.now) (2 ^ length (ids_of few.now)) (tree_at store.now id) (tree_at store.now clause)) }
{
    let formula_rows = truths_in(alloc, store, few, id)?;
    let clause_rows = truths_in(alloc, store, few, clause)?;
    let follows = are_within(few, formula_rows, clause_rows);
    Ok(follows)
}

/// Whether a Bool name is one of the names.
fn name_fits(few: &Few, id: TermId, name: &Name) -> bool
    ensures { result ≡ (not (texts.is_int name.now.sort) && is_among (ids_of few.now) id) }
{
    !is_int(name.sort()) && is_among(few, id)
}

/// Whether a term is a literal of one of the names.
#[tactic(auto, using(crate::proofs::Rowing::lit_plain, crate::proofs::Rowing::lit_negated, crate::proofs::Rowing::lit_none))]
fn lit_fits(store: &Store, few: &Few, id: TermId) -> bool
    requires has { Has store.now id }
    ensures { IsLitOver store.now (ids_of few.now) (tree_at store.now id) result }
{
    store.is_distinct();
    match store.view(id) {
        Term::Var(name) => name_fits(few, id, name),
        Term::Not(inner) => negated_fits(store, few, *inner),
        _ => false,
    }
}

/// Whether the negation of a term is a literal of one of the names.
#[tactic(auto, using(crate::proofs::Rowing::negated_name, crate::proofs::Rowing::negated_none))]
fn negated_fits(store: &Store, few: &Few, id: TermId) -> bool
    requires has { Has store.now id }
    ensures { IsLitOver store.now (ids_of few.now) (Not (tree_at store.now id)) result }
{
    store.is_distinct();
    match store.view(id) {
        Term::Var(name) => name_fits(few, id, name),
        _ => false,
    }
}

/// Whether all terms are literals of the names.
#[tactic(auto, using(crate::proofs::Rowing::lits_next, crate::proofs::Rowing::lits_not, crate::proofs::Rowing::lits_done, crate::proofs::Rowing::has_at))]
fn lits_fit(store: &Store, few: &Few, ids: &[TermId]) -> bool
    requires has { All (Has store.now) ids.now }
    ensures { AreLitsOver store.now (ids_of few.now) (trees_at store.now ids.now) result }
{
    for id in ids {
        let fits = lit_fits(store, few, *id);
        if !fits {
            return false;
        }
    }
    true
}

/// Whether a term is a clause over the names.
#[tactic(auto, using(crate::proofs::Rowing::clause_false, crate::proofs::Rowing::clause_or, crate::proofs::Rowing::clause_lit))]
fn clause_fits(store: &Store, few: &Few, id: TermId) -> bool
    requires has { Has store.now id }
    ensures { IsClauseOver store.now (ids_of few.now) (tree_at store.now id) result }
{
    match store.view(id) {
        Term::False => true,
        Term::Or(all) => lits_fit(store, few, all.as_slice()),
        _ => lit_fits(store, few, id),
    }
}

/// Whether a term is a clause over names of a formula of few names, from which it follows.
///
/// It costs in proportion to the distinct subterms of the two, each of which is asked for its names and for its truth in all rows.
#[tactic(auto, using(crate::proofs::Rowing::fits_many, crate::proofs::Rowing::fits_other, crate::proofs::Rowing::fits_rows))]
fn fits(alloc: Global, store: &Store, id: TermId, clause: TermId) -> Result<bool, AllocError>
    requires has { Has store.now id }
    requires clause { Has store.now clause }
    ensures { IfOk result (λ b. b ≡ tables.table_fits (tree_at store.now id) (tree_at store.now clause)) }
{
    match few_names(alloc, store, id)? {
        None => Ok(false),
        Some(few) => {
            if clause_fits(store, &few, clause) {
                let found = follows(alloc, store, &few, id, clause)?;
                Ok(found)
            } else {
                Ok(false)
            }
        }
    }
}

/// The new item of `table`: a clause over names of a formula of at most five names, if it follows by the formula's truth table.
#[tactic(auto, using(cert_items::proofs::Finding::formula_here, cert_items::proofs::Finding::formula_is, cert_items::proofs::Finding::formula_gone, qterm::proofs::Extending::Extends_refl))]
pub fn table(
    alloc: Global,
    store: &mut Store,
    state: &State,
    item: u32,
    clause: TermId,
) -> Result<Option<Items<Held>>, AllocError>
    requires state { IsState store.old state.now }
    requires clause { Has store.old clause }
    ensures gives { IfOk result (λ o. shown_some store.new o ≡ tables.table (items_of store.old state.now) item (tree_at store.old clause)) }
    ensures items { IfOk result (IfIn store.new) }
    ensures extends { Extends store.old store.new }
{
    match formula_at(state.items(), item) {
        None => Ok(None),
        Some(id) => {
            let given = table_of(alloc, store, id, clause)?;
            Ok(given)
        }
    }
}

/// The same of a formula.
#[tactic(auto, using(crate::proofs::Rowing::given_clause, crate::proofs::Rowing::given_none, crate::proofs::Rowing::clause_there))]
fn table_of(
    alloc: Global,
    store: &Store,
    id: TermId,
    clause: TermId,
) -> Result<Option<Items<Held>>, AllocError>
    requires has { Has store.now id }
    requires clause { Has store.now clause }
    ensures gives { IfOk result (λ o. shown_some store.now o ≡ tables.table_of (Some (tree_at store.now id)) (tree_at store.now clause)) }
    ensures items { IfOk result (IfIn store.now) }
{
    let follows = fits(alloc, store, id, clause)?;
    if follows {
        let items = one(alloc, Held::Formula(clause))?;
        Ok(Some(items))
    } else {
        Ok(None)
    }
}
