//! The walk over a proof, in preorder.
ghost use Rattle.std.specs.Prelude.{◌≡◌, ◌≤◌, ◌∷◌, ◌++◌, [], List, IfOk, IfSome, OnOk, length, All, Some};
ghost use Rattle.std.specs.Option.{option_map};
ghost use Rattle.qterm.specs.declared.name.Sort.TheVariants as sort;
ghost use Rattle.qterm.specs.Tree.{Tree};
ghost use Rattle.qterm.specs.Store.{Has, HasSort, Extends, tree_at, trees_of};
ghost use Rattle.cert_items.specs.Held.{kept};
ghost use Rattle.cert_items.specs.State.{IsState, items_of};
ghost use Rattle.tac_cert.specs.declared.cert.Close.{out-Close};
ghost use Rattle.tac_cert.specs.Items.{Formula, formula_at as formula_of};
ghost use Rattle.tac_cert.specs.Accepts as rules;
ghost use Rattle.tac_cert.specs.Formulas as formulas;
ghost use Rattle.tac_cert.specs.Gives.{gives, StepFits};
ghost use Rattle.cert_check.specs.Walking as walks;
ghost use Rattle.cert_check.specs.Tables.{AreReady, Grows, passed, given, EndFits};

use crate::steps::{Tables, give, word_of};
use crate::verdict::{Ran, RuleWord, Walk};
use cert_items::{Held, State, formula_at};
use qterm::{Store, Term, TermId, TermIds};
use sqlite_items::Items;
use std::alloc::{AllocError, Global};
use tac_cert::{Close, Proof, Step};

/// The steps in order, the first of them having the number `next`.
fn run(
    alloc: Global,
    store: &mut Store,
    tables: &mut Tables,
    state: &mut State,
    next: u32,
    steps: &[Step],
) -> Result<Ran, AllocError>
    requires state { IsState store.old state.old }
    requires fits { rules.StepsFit store.old steps.now }
    requires tables { AreReady store.old tables.old }
    ensures run { IfOk result (λ r. passed store.new state.new r ≡ walks.run store.old (items_of store.old state.old) next steps.now) }
    ensures grows { OnOk result (walks.HasNoKeep steps.now → Grows state.old.items state.new.items) }
    ensures state { OnOk result (IsState store.new state.new) }
    ensures tables { OnOk result (AreReady store.new tables.new) }
    ensures extends { Extends store.old store.new }
{
    let mut line = next;
    for step in steps {
        if !give(alloc, store, tables, state, step)? {
            return Ok(Ran::Stopped(line, word_of(step)));
        }
        line = line.saturating_add(1);
    }
    Ok(Ran::Through(line))
}

/// Whether an item is `false`.
fn closes_false(store: &Store, state: &State, item: u32) -> bool
    requires state { IsState store.now state.now }
    ensures { result ≡ walks.is_false (formula_of (items_of store.now state.now) item) }
{
    match formula_at(state.items(), item) {
        None => false,
        Some(id) => is_false(store, id),
    }
}

/// Whether a term is `false`.
fn is_false(store: &Store, id: TermId) -> bool
    requires has { Has store.now id }
    ensures { result ≡ walks.is_false (Some (tree_at store.now id)) }
{
    matches!(store.view(id), Term::False)
}

/// The children of a disjunction; none where the item is none.
fn disjuncts(alloc: Global, store: &Store, state: &State, item: u32) -> Result<TermIds, AllocError>
    requires state { IsState store.now state.now }
    ensures parts { IfOk result (λ ids. trees_of store.now ids ≡ walks.disjuncts (formula_of (items_of store.now state.now) item)) }
    ensures sorts { IfOk result (λ ids. All (HasSort sort.Bool store.now) ids) }
{
    match formula_at(state.items(), item) {
        None => Ok(TermIds::from_vec(Vec::new(alloc))),
        Some(id) => {
            let parts = children_of(alloc, store, id)?;
            Ok(parts)
        }
    }
}

/// The children of a disjunction; none where the term is none.
fn children_of(alloc: Global, store: &Store, id: TermId) -> Result<TermIds, AllocError>
    requires has { Has store.now id }
    ensures parts { IfOk result (λ ids. trees_of store.now ids ≡ walks.disjuncts (Some (tree_at store.now id))) }
    ensures sorts { IfOk result (λ ids. All (HasSort sort.Bool store.now) ids) }
{
    match store.view(id) {
        Term::Or(all) => Ok(TermIds::from_vec(Vec::from_slice(alloc, all.as_slice())?)),
        _ => Ok(TermIds::from_vec(Vec::new(alloc))),
    }
}

/// Whether there are as many cases as children, and some.
fn fits_cases(parts: &TermIds, cases: &Items<Proof>) -> bool
    ensures { result ≡ walks.fits_cases (length parts.now) (length cases.now) }
{
    parts.len() == cases.len() && !parts.is_empty()
}

/// Whether a step is `keep`.
fn is_keep(step: &Step) -> bool
    ensures { result ≡ walks.is_keep step.now }
{
    matches!(step, Step::Keep { .. })
}

/// How many steps stand before the first `keep`.
fn before_keep(steps: &[Step]) -> usize
    ensures count { result ≡ walks.before_keep steps.now }
    ensures within { result ≤ length steps.now }
{
    let mut count = 0;
    while count < steps.len() && !is_keep(&steps[count]) {
        count += 1;
    }
    count
}

/// The proof from the items of a state, its first line having the number `next`; `left` more splits may stand one in another.
/// Items come behind those of the state: what a `keep` leaves is a state of its own.
#[cycle(walk)]
pub(crate) fn walk(
    alloc: Global,
    store: &mut Store,
    tables: &mut Tables,
    left: u32,
    state: &mut State,
    next: u32,
    proof: &Proof,
) -> Result<Walk, AllocError>
    requires state { IsState store.old state.old }
    requires fits { rules.ProofFits store.old left proof.now }
    requires tables { AreReady store.old tables.old }
    ensures walk { IfOk result (λ w. w ≡ walks.walk store.old left (items_of store.old state.old) next proof.now) }
    ensures grows { OnOk result (Grows state.old.items state.new.items) }
    ensures state { OnOk result (IsState store.new state.new) }
    ensures tables { OnOk result (AreReady store.new tables.new) }
    ensures extends { Extends store.old store.new }
{
    let steps = proof.steps.as_slice();
    let count = before_keep(steps);
    match run(alloc, store, tables, state, next, &steps[..count])? {
        Ran::Stopped(line, word) => Ok(Walk::Refused(line, word)),
        Ran::Through(line) => finish(
            alloc,
            store,
            tables,
            left,
            state,
            line,
            &steps[count..],
            &proof.close,
        ),
    }
}

/// The rest of a proof, which begins with a `keep` or is the closing line alone. The items of the state stay.
#[cycle(walk)]
fn finish(
    alloc: Global,
    store: &mut Store,
    tables: &mut Tables,
    left: u32,
    state: &mut State,
    next: u32,
    steps: &[Step],
    end: &Close,
) -> Result<Walk, AllocError>
    requires keep { walks.before_keep steps.now ≡ 0 }
    requires state { IsState store.old state.old }
    requires steps { rules.StepsFit store.old steps.now }
    requires fits { EndFits store.old left (out-Close end.now) }
    requires tables { AreReady store.old tables.old }
    ensures walk { IfOk result (λ w. w ≡ walks.closes (walks.inner store.old left) (walks.run store.old (items_of store.old state.old) next steps.now) end.now) }
    ensures items { OnOk result (state.new.items ≡ state.old.items) }
    ensures state { OnOk result (IsState store.new state.new) }
    ensures tables { OnOk result (AreReady store.new tables.new) }
    ensures extends { Extends store.old store.new }
{
    if steps.is_empty() {
        return close(alloc, store, tables, left, state, next, end);
    }
    match &steps[0] {
        Step::Keep { items } => from_kept(
            alloc,
            store,
            tables,
            left,
            state,
            next,
            items.as_slice(),
            &steps[1..],
            end,
        ),
        _ => unreachable!(),
    }
}

/// A `keep` of the items of these numbers, and the rest of the proof.
#[cycle(walk)]
fn from_kept(
    alloc: Global,
    store: &mut Store,
    tables: &mut Tables,
    left: u32,
    state: &State,
    next: u32,
    numbers: &[u32],
    later: &[Step],
    end: &Close,
) -> Result<Walk, AllocError>
    requires state { IsState store.old state.now }
    requires steps { rules.StepsFit store.old later.now }
    requires fits { EndFits store.old left (out-Close end.now) }
    requires tables { AreReady store.old tables.old }
    ensures walk { IfOk result (λ w. w ≡ walks.closes (walks.inner store.old left) (walks.keep_then store.old next (formulas.kept (items_of store.old state.now) numbers.now) later.now) end.now) }
    ensures tables { OnOk result (AreReady store.new tables.new) }
    ensures extends { Extends store.old store.new }
{
    let Some(mut own) = kept_apart(alloc, store, state, numbers)? else {
        return Ok(Walk::Refused(next, RuleWord::Keep));
    };
    let apart = &mut *own;
    match run(alloc, store, tables, apart, next.saturating_add(1), later)? {
        Ran::Stopped(line, word) => Ok(Walk::Refused(line, word)),
        Ran::Through(line) => close(alloc, store, tables, left, apart, line, end),
    }
}

/// The items of these numbers in a state of their own, or nothing where a number has none. It lies on the heap and is made outside of
/// the frames that stand in one another, since 2,048 splits share a small stack.
#[inline(never)]
fn kept_apart(
    alloc: Global,
    store: &Store,
    state: &State,
    numbers: &[u32],
) -> Result<Option<Box<State>>, AllocError>
    requires state { IsState store.now state.now }
    ensures items { IfOk result (λ o. option_map (λ s. s.items) (option_map (λ b. b.value) o) ≡ kept state.now.items numbers.now) }
    ensures state { IfOk result (λ o. IfSome o (λ b. IsState store.now b.value)) }
{
    match state.kept(alloc, store, numbers)? {
        None => Ok(None),
        Some(own) => Ok(Some(Box::new(alloc, own)?)),
    }
}

/// The closing line of a proof.
#[cycle(walk)]
fn close(
    alloc: Global,
    store: &mut Store,
    tables: &mut Tables,
    left: u32,
    state: &mut State,
    next: u32,
    end: &Close,
) -> Result<Walk, AllocError>
    requires state { IsState store.old state.old }
    requires fits { EndFits store.old left (out-Close end.now) }
    requires tables { AreReady store.old tables.old }
    ensures walk { IfOk result (λ w. w ≡ walks.close_of (walks.inner store.old left) (items_of store.old state.old) next (out-Close end.now)) }
    ensures items { OnOk result (state.new.items ≡ state.old.items) }
    ensures state { OnOk result (IsState store.new state.new) }
    ensures tables { OnOk result (AreReady store.new tables.new) }
    ensures extends { Extends store.old store.new }
{
    match end {
        Close::False(item) => {
            if closes_false(store, state, *item) {
                Ok(Walk::Closed(next.saturating_add(1)))
            } else {
                Ok(Walk::Refused(next, RuleWord::False))
            }
        }
        Close::Split { item, cases } => {
            if left == 0 {
                return Ok(Walk::Refused(next, RuleWord::Split));
            }
            let parts = disjuncts(alloc, store, state, *item)?;
            if fits_cases(&parts, cases) {
                walk_cases(
                    alloc,
                    store,
                    tables,
                    left - 1,
                    state,
                    next.saturating_add(1),
                    &parts,
                    cases,
                )
            } else {
                Ok(Walk::Refused(next, RuleWord::Split))
            }
        }
    }
}

/// The proofs of the cases, each with its child as a new item. What a case puts behind the items is taken back after it.
#[cycle(walk)]
fn walk_cases(
    alloc: Global,
    store: &mut Store,
    tables: &mut Tables,
    left: u32,
    state: &mut State,
    next: u32,
    parts: &TermIds,
    cases: &Items<Proof>,
) -> Result<Walk, AllocError>
    requires count { length parts.now ≡ length cases.now }
    requires state { IsState store.old state.old }
    requires sorts { All (HasSort sort.Bool store.old) parts.now }
    requires fits { rules.EachFits (rules.ProofFits store.old left) cases.now }
    requires tables { AreReady store.old tables.old }
    ensures walk { IfOk result (λ w. w ≡ walks.cases_from (walks.walk store.old left) (items_of store.old state.old) next (trees_of store.old parts.now) cases.now) }
    ensures items { OnOk result (state.new.items ≡ state.old.items) }
    ensures state { OnOk result (IsState store.new state.new) }
    ensures tables { OnOk result (AreReady store.new tables.new) }
    ensures extends { Extends store.old store.new }
{
    let mut line = next;
    for (k, case) in cases.as_slice().iter().enumerate() {
        match walk_case(
            alloc,
            store,
            tables,
            left,
            state,
            line,
            parts.as_slice()[k],
            case,
        )? {
            Walk::Closed(after) => line = after,
            Walk::Refused(at, word) => return Ok(Walk::Refused(at, word)),
        }
    }
    Ok(Walk::Closed(line))
}

/// The proof of a case, with its formula as a new item. The items of the state stay.
#[cycle(walk)]
fn walk_case(
    alloc: Global,
    store: &mut Store,
    tables: &mut Tables,
    left: u32,
    state: &mut State,
    next: u32,
    formula: TermId,
    case: &Proof,
) -> Result<Walk, AllocError>
    requires state { IsState store.old state.old }
    requires formula { HasSort sort.Bool store.old formula }
    requires fits { rules.ProofFits store.old left case.now }
    requires tables { AreReady store.old tables.old }
    ensures walk { IfOk result (λ w. w ≡ walks.walk store.old left (items_of store.old state.old ++ Formula (tree_at store.old formula) ∷ []) next case.now) }
    ensures items { OnOk result (state.new.items ≡ state.old.items) }
    ensures state { OnOk result (IsState store.new state.new) }
    ensures tables { OnOk result (AreReady store.new tables.new) }
    ensures extends { Extends store.old store.new }
{
    let len = state.items().len();
    state.push(alloc, store, Held::Formula(formula))?;
    let walked = walk(alloc, store, tables, left, state, next, case)?;
    state.cut(store, len)?;
    Ok(walked)
}
