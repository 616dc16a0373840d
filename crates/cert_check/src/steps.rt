//! Steps.
ghost use Rattle.std.specs.Prelude.{◌≡◌, ◌++◌, List, IfOk, OnOk, false};
ghost use Rattle.qterm.specs.Tree.{Tree};
ghost use Rattle.qterm.specs.Store.{Has, Extends};
ghost use Rattle.cert_items.specs.Held.{IfIn, shown_some, AllIn, shown_all};
ghost use Rattle.cert_items.specs.State.{IsState, items_of};
ghost use Rattle.qcanon.specs.Chain.{AreForms};
ghost use Rattle.cert_rules.specs.Depths.{AreDepths};
ghost use Rattle.tac_cert.specs.Gives as rules;
ghost use Rattle.tac_cert.specs.Formulas as formulas;
ghost use Rattle.cert_check.specs.Walking as walks;
ghost use Rattle.cert_check.specs.Tables.{AreReady, Grows, given};

use crate::verdict::RuleWord;
use cert_items::{Held, State, copy_held};
use cert_rules::{Depths, define, is_shallow, part, propagate, rewrite, substitute};
use cert_values::{ite_parts, range, table};
use cert_words::{add as sum, bit, bits, cmp, eqc, mul};
use qcanon::Forms;
use qterm::Store;
use sqlite_items::Items;
use std::alloc::{AllocError, Global};
use tac_cert::Step;

/// What was found out about terms on the way: canonical forms and depths, each once.
#[derive(Drop)]
pub(crate) struct Tables {
    forms: Forms,
    depths: Depths,
}

impl Tables {
    /// Nothing yet. It takes no memory.
    pub(crate) fn new(alloc: Global) -> Tables
        ensures { (ts : List Tree) → AreReady ts result }
    {
        Tables {
            forms: Forms::new(alloc),
            depths: Depths::new(alloc),
        }
    }
}

/// The rule of a step.
pub(crate) fn word_of(step: &Step) -> RuleWord
    ensures { result ≡ walks.word_of step.now }
{
    match step {
        Step::Rw { .. } => RuleWord::Rw,
        Step::Keep { .. } => RuleWord::Keep,
        Step::Part { .. } => RuleWord::And,
        Step::Def { .. } => RuleWord::Def,
        Step::Subst { .. } => RuleWord::Subst,
        Step::IteParts { .. } => RuleWord::Ite,
        Step::Range { .. } => RuleWord::Range,
        Step::Bits { .. } => RuleWord::Bits,
        Step::Bit { .. } => RuleWord::Bit,
        Step::Mul { .. } => RuleWord::Mul,
        Step::Add { .. } => RuleWord::Add,
        Step::Cmp { .. } => RuleWord::Cmp,
        Step::Eqc { .. } => RuleWord::Eqc,
        Step::Table { .. } => RuleWord::Table,
        Step::Rup { .. } => RuleWord::Rup,
    }
}

/// Whether the terms that a step names aren't too deep.
fn are_shallow(
    alloc: Global,
    store: &Store,
    depths: &mut Depths,
    step: &Step,
) -> Result<bool, AllocError>
    requires fits { rules.StepFits store.now step.now }
    requires depths { AreDepths store.now depths.old }
    ensures value { IfOk result (λ b. b ≡ rules.are_shallow store.now step.now) }
    ensures depths { OnOk result (AreDepths store.now depths.new) }
{
    match step {
        Step::Rw { formula, .. } => is_shallow(alloc, store, depths, *formula),
        Step::Def { term, .. } => is_shallow(alloc, store, depths, *term),
        Step::Subst { from, to, .. } => {
            if is_shallow(alloc, store, depths, *from)? {
                is_shallow(alloc, store, depths, *to)
            } else {
                Ok(false)
            }
        }
        Step::Table { clause, .. } => is_shallow(alloc, store, depths, *clause),
        Step::Rup { clause, .. } => is_shallow(alloc, store, depths, *clause),
        _ => Ok(true),
    }
}

/// The new items that the rule of a step gives, or nothing where it refuses the step.
fn new_items(
    alloc: Global,
    store: &mut Store,
    tables: &mut Tables,
    state: &State,
    step: &Step,
) -> Result<Option<Items<Held>>, AllocError>
    requires state { IsState store.old state.now }
    requires fits { rules.StepFits store.old step.now }
    requires tables { AreReady store.old tables.old }
    ensures gives { IfOk result (λ o. shown_some store.new o ≡ rules.new_items store.old (items_of store.old state.now) step.now) }
    ensures items { IfOk result (IfIn store.new) }
    ensures tables { OnOk result (AreReady store.new tables.new) }
    ensures extends { Extends store.old store.new }
{
    match step {
        Step::Rw { item, formula } => {
            rewrite(alloc, store, &mut tables.forms, state, *item, *formula)
        }
        Step::Part { item, part: at } => part(alloc, store, state, *item, *at),
        Step::Def { name, term } => define(alloc, store, state, name, *term),
        Step::Subst {
            item,
            from,
            to,
            target,
        } => substitute(
            alloc,
            store,
            &mut tables.forms,
            &mut tables.depths,
            state,
            *item,
            *from,
            *to,
            *target,
        ),
        Step::Rup { clause, hints } => propagate(alloc, store, state, *clause, hints.as_slice()),
        Step::IteParts { item } => ite_parts(alloc, store, state, *item),
        Step::Range { item } => range(alloc, store, state, *item),
        Step::Bits { name, bits: digits } => bits(alloc, store, state, name, digits.as_slice()),
        Step::Bit { name, flag } => bit(alloc, store, state, name, flag),
        Step::Mul { word, by } => mul(alloc, store, state, *word, *by),
        Step::Add { left, right, names } => {
            sum(alloc, store, state, *left, *right, names.as_slice())
        }
        Step::Cmp { word, bound, names } => {
            cmp(alloc, store, state, *word, *bound, names.as_slice())
        }
        Step::Eqc { word, bound, names } => {
            eqc(alloc, store, state, *word, *bound, names.as_slice())
        }
        Step::Table { item, clause } => table(alloc, store, state, *item, *clause),
        Step::Keep { .. } => Ok(None),
    }
}

/// Puts items behind those of a state.
fn append(
    alloc: Global,
    store: &Store,
    state: &mut State,
    new: Items<Held>,
) -> Result<(), AllocError>
    requires state { IsState store.now state.old }
    requires items { AllIn store.now new }
    ensures items { OnOk result (state.new.items ≡ state.old.items ++ new) }
    ensures state { OnOk result (IsState store.now state.new) }
{
    for held in new.as_slice() {
        state.push(alloc, store, copy_held(alloc, held)?)?;
    }
    Ok(())
}

/// What a step leaves in the place of the items: whether its rule accepts it.
pub(crate) fn give(
    alloc: Global,
    store: &mut Store,
    tables: &mut Tables,
    state: &mut State,
    step: &Step,
) -> Result<bool, AllocError>
    requires state { IsState store.old state.old }
    requires fits { rules.StepFits store.old step.now }
    requires tables { AreReady store.old tables.old }
    ensures gives { IfOk result (λ b. given b (items_of store.new state.new) ≡ rules.gives store.old (items_of store.old state.old) step.now) }
    ensures grows { OnOk result (walks.is_keep step.now ≡ false → Grows state.old.items state.new.items) }
    ensures state { OnOk result (IsState store.new state.new) }
    ensures tables { OnOk result (AreReady store.new tables.new) }
    ensures extends { Extends store.old store.new }
{
    if !are_shallow(alloc, store, &mut tables.depths, step)? {
        return Ok(false);
    }
    match step {
        Step::Keep { items } => keep(alloc, store, state, items.as_slice()),
        _ => add(alloc, store, tables, state, step),
    }
}

/// `keep`: these items alone, numbered anew.
fn keep(
    alloc: Global,
    store: &Store,
    state: &mut State,
    numbers: &[u32],
) -> Result<bool, AllocError>
    requires state { IsState store.now state.old }
    ensures gives { IfOk result (λ b. given b (items_of store.now state.new) ≡ formulas.kept (items_of store.now state.old) numbers.now) }
    ensures state { OnOk result (IsState store.now state.new) }
{
    match state.kept(alloc, store, numbers)? {
        None => Ok(false),
        Some(kept) => {
            *state = kept;
            Ok(true)
        }
    }
}

/// The items with those behind them that a rule gives.
fn add(
    alloc: Global,
    store: &mut Store,
    tables: &mut Tables,
    state: &mut State,
    step: &Step,
) -> Result<bool, AllocError>
    requires state { IsState store.old state.old }
    requires fits { rules.StepFits store.old step.now }
    requires tables { AreReady store.old tables.old }
    ensures gives { IfOk result (λ b. given b (items_of store.new state.new) ≡ rules.adds (items_of store.old state.old) (rules.new_items store.old (items_of store.old state.old) step.now)) }
    ensures grows { OnOk result (Grows state.old.items state.new.items) }
    ensures state { OnOk result (IsState store.new state.new) }
    ensures tables { OnOk result (AreReady store.new tables.new) }
    ensures extends { Extends store.old store.new }
{
    match new_items(alloc, store, tables, state, step)? {
        None => Ok(false),
        Some(new) => {
            store.is_lawful();
            append(alloc, store, state, new)?;
            Ok(true)
        }
    }
}
