//! The lines of steps.
ghost use Rattle.std.specs.Prelude.{◌≡◌, ◌++◌, List, OnOk, All};
ghost use Rattle.strat_text.specs.Spelled.{spaced};
ghost use Rattle.qterm.specs.Store.{Has, trees_of};
ghost use Rattle.qwalk.specs.Subterms.{subterms_of};
ghost use Rattle.tac_cert.specs.Gives.{StepFits, terms_of};
ghost use Rattle.tac_cert.specs.Accepts.{StepsFit};
ghost use Rattle.qterm.specs.Tree.{Tree};
ghost use Rattle.cert_text.specs.TermLines.{term_lines, with_lines};
ghost use Rattle.cert_text.specs.StepLines as spec;
ghost use Rattle.cert_text.specs.CertText.{Written, steps_then};
ghost use Rattle.cert_text.specs.Waiting.{AreLines};

use crate::lines::Lines;
use crate::terms::{push_reference, push_terms};
use crate::words::{push_count, push_counts, push_integer, push_name, push_names, put};
use qterm::Store;
use std::alloc::{AllocError, Global};
use tac_cert::Step;

/// Adds the lines of steps, each behind those of its terms that have none yet.
pub(crate) fn push_steps(
    alloc: Global,
    text: &mut Vec<u8>,
    lines: &mut Lines,
    store: &Store,
    steps: &[Step],
) -> Result<(), AllocError>
    requires fits { StepsFit store.now steps.now }
    requires lines { AreLines store.now lines.old }
    ensures text { OnOk result ((rest : List Tree → Written) → text.new.items ++ (rest (trees_of store.now lines.new)).text ≡ text.old.items ++ (steps_then store.now (trees_of store.now lines.old) steps.now rest).text) }
    ensures known { OnOk result ((rest : List Tree → Written) → (rest (trees_of store.now lines.new)).known ≡ (steps_then store.now (trees_of store.now lines.old) steps.now rest).known) }
    ensures lines { OnOk result (AreLines store.now lines.new) }
{
    for step in steps {
        push_step(alloc, text, lines, store, step)?;
    }
    Ok(())
}

/// Adds the line of a step, behind those of its terms that have none yet.
fn push_step(
    alloc: Global,
    text: &mut Vec<u8>,
    lines: &mut Lines,
    store: &Store,
    step: &Step,
) -> Result<(), AllocError>
    requires fits { StepFits store.now step.now }
    requires lines { AreLines store.now lines.old }
    ensures text { OnOk result (text.new.items ≡ text.old.items ++ spec.step_text store.now (trees_of store.now lines.old) step.now) }
    ensures known { OnOk result (trees_of store.now lines.new ≡ spec.known_after store.now (trees_of store.now lines.old) step.now) }
    ensures lines { OnOk result (AreLines store.now lines.new) }
{
    push_terms_of(alloc, text, lines, store, step)?;
    put(text, rule_word(step))?;
    push_arguments(text, lines, store, step)?;
    put(text, b"\n")
}

/// Adds the lines of the terms of a step, as far as they have none.
fn push_terms_of(
    alloc: Global,
    text: &mut Vec<u8>,
    lines: &mut Lines,
    store: &Store,
    step: &Step,
) -> Result<(), AllocError>
    requires fits { StepFits store.now step.now }
    requires lines { AreLines store.now lines.old }
    ensures text { OnOk result (text.new.items ≡ text.old.items ++ term_lines (trees_of store.now lines.old) (subterms_of (terms_of store.now step.now))) }
    ensures known { OnOk result (trees_of store.now lines.new ≡ with_lines (trees_of store.now lines.old) (subterms_of (terms_of store.now step.now))) }
    ensures lines { OnOk result (AreLines store.now lines.new) }
{
    match step {
        Step::Rw { formula, .. } => push_terms(alloc, text, lines, store, *formula),
        Step::Def { term, .. } => push_terms(alloc, text, lines, store, *term),
        Step::Subst { from, to, .. } => {
            push_terms(alloc, text, lines, store, *from)?;
            push_terms(alloc, text, lines, store, *to)
        }
        Step::Table { clause, .. } => push_terms(alloc, text, lines, store, *clause),
        Step::Rup { clause, .. } => push_terms(alloc, text, lines, store, *clause),
        _ => Ok(()),
    }
}

/// The word of a step's rule.
fn rule_word(step: &Step) -> &'static [u8]
    ensures { result.now ≡ spec.rule_word step.now }
{
    match step {
        Step::Rw { .. } => b"rw",
        Step::Keep { .. } => b"keep",
        Step::Part { .. } => b"and",
        Step::Def { .. } => b"def",
        Step::Subst { .. } => b"subst",
        Step::IteParts { .. } => b"ite",
        Step::Range { .. } => b"range",
        Step::Bits { .. } => b"bits",
        Step::Bit { .. } => b"bit",
        Step::Mul { .. } => b"mul",
        Step::Add { .. } => b"add",
        Step::Cmp { .. } => b"cmp",
        Step::Eqc { .. } => b"eqc",
        Step::Table { .. } => b"table",
        Step::Rup { .. } => b"rup",
    }
}

/// Adds what the line of a step has behind the rule's word.
fn push_arguments(
    text: &mut Vec<u8>,
    lines: &Lines,
    store: &Store,
    step: &Step,
) -> Result<(), AllocError>
    requires fits { StepFits store.now step.now }
    requires lines { All (Has store.now) lines.now }
    ensures { OnOk result (text.new.items ≡ text.old.items ++ spaced (spec.arguments store.now (trees_of store.now lines.now) step.now)) }
{
    match step {
        Step::Rw { item, formula } => {
            push_count(text, *item)?;
            push_reference(text, lines, store, *formula)
        }
        Step::Keep { items } => push_counts(text, items.as_slice()),
        Step::Part { item, part } => {
            push_count(text, *item)?;
            push_count(text, *part)
        }
        Step::Def { name, term } => {
            push_name(text, name)?;
            push_reference(text, lines, store, *term)
        }
        Step::Subst {
            item,
            from,
            to,
            target,
        } => {
            push_count(text, *item)?;
            push_reference(text, lines, store, *from)?;
            push_reference(text, lines, store, *to)?;
            push_count(text, *target)
        }
        Step::IteParts { item } => push_count(text, *item),
        Step::Range { item } => push_count(text, *item),
        Step::Bits { name, bits } => {
            push_name(text, name)?;
            push_names(text, bits.as_slice())
        }
        Step::Bit { name, flag } => {
            push_name(text, name)?;
            push_name(text, flag)
        }
        Step::Mul { word, by } => {
            push_count(text, *word)?;
            push_integer(text, *by)
        }
        Step::Add { left, right, names } => {
            push_count(text, *left)?;
            push_count(text, *right)?;
            push_names(text, names.as_slice())
        }
        Step::Cmp { word, bound, names } => {
            push_count(text, *word)?;
            push_integer(text, *bound)?;
            push_names(text, names.as_slice())
        }
        Step::Eqc { word, bound, names } => {
            push_count(text, *word)?;
            push_integer(text, *bound)?;
            push_names(text, names.as_slice())
        }
        Step::Table { item, clause } => {
            push_count(text, *item)?;
            push_reference(text, lines, store, *clause)
        }
        Step::Rup { clause, hints } => {
            push_reference(text, lines, store, *clause)?;
            push_counts(text, hints.as_slice())
        }
    }
}
