//! Steps from their lines.
ghost use Rattle.std.specs.Prelude.{◌≡◌, All, IfOk, List};
ghost use Rattle.qterm.specs.Tree.{Tree};
ghost use Rattle.qterm.specs.Store.{Has};
ghost use Rattle.tac_cert.specs.Gives.{StepFits};

use crate::fault::Fault;
use crate::heads::Rule;
use crate::lines::Lines;
use crate::names::named;
use crate::words::Words;
use qterm::{Name, Sort, Store, TermId};
use std::alloc::Global;
use tac_cert::Step;

/// The step of a line of the rule, behind its first word. The lines of its terms stand directly before it, as far as no step had
/// called for them.
pub(crate) fn take_step(
    alloc: Global,
    store: &Store,
    lines: &mut Lines,
    words: &mut Words<'_>,
    rule: Rule,
) -> Result<Step, Fault>
    requires lines { All (Has store.now) lines.old.ids.keys }
    ensures fits { IfOk result (StepFits store.now) }
    ensures ids { lines.new.ids ≡ lines.old.ids }
{
    let step = read_step(alloc, store, lines, words, rule)?;
    words.end()?;
    call_for_terms(alloc, store, lines, &step)?;
    lines.all_used()?;
    Ok(step)
}

/// Calls for the lines of a step's terms, from left to right.
fn call_for_terms(alloc: Global, store: &Store, lines: &mut Lines, step: &Step) -> Result<(), Fault>
    requires fits { StepFits store.now step.now }
    ensures ids { lines.new.ids ≡ lines.old.ids }
{
    match step {
        Step::Rw { formula, .. } => lines.call_for(alloc, store, *formula),
        Step::Def { term, .. } => lines.call_for(alloc, store, *term),
        Step::Subst { from, to, .. } => {
            lines.call_for(alloc, store, *from)?;
            lines.call_for(alloc, store, *to)
        }
        Step::Table { clause, .. } => lines.call_for(alloc, store, *clause),
        Step::Rup { clause, .. } => lines.call_for(alloc, store, *clause),
        _ => Ok(()),
    }
}

/// The step of a line.
fn read_step(
    alloc: Global,
    store: &Store,
    lines: &Lines,
    words: &mut Words<'_>,
    rule: Rule,
) -> Result<Step, Fault>
    requires lines { All (Has store.now) lines.now.ids.keys }
    ensures fits { IfOk result (StepFits store.now) }
{
    match rule {
        Rule::Def => {
            let word = words.word()?;
            let term = lines.reference(words)?;
            let name = named(alloc, word, store.sort(term))?;
            Ok(Step::Def { name, term })
        }
        Rule::Rup => {
            let clause = lines.reference(words)?;
            let hints = words.counts(alloc)?;
            Ok(Step::Rup { clause, hints })
        }
        Rule::Keep => Ok(Step::Keep {
            items: words.counts(alloc)?,
        }),
        Rule::Bits | Rule::Bit => read_bits(alloc, words, rule),
        _ => {
            let item = words.count()?;
            read_on(alloc, lines, words, rule, item)
        }
    }
}

/// The step of a line whose first words are names.
fn read_bits(alloc: Global, words: &mut Words<'_>, rule: Rule) -> Result<Step, Fault>
    ensures fits { (ts : List Tree) → IfOk result (StepFits ts) }
{
    let name = words.name(alloc, Sort::Int)?;
    match rule {
        Rule::Bits => {
            let bits = words.names(alloc, Sort::Int)?;
            Ok(Step::Bits { name, bits })
        }
        _ => {
            let flag = words.name(alloc, Sort::Bool)?;
            Ok(Step::Bit { name, flag })
        }
    }
}

/// The step of a line on an item.
fn read_on(
    alloc: Global,
    lines: &Lines,
    words: &mut Words<'_>,
    rule: Rule,
    item: u32,
) -> Result<Step, Fault>
    ensures fits { (ts : List Tree) → All (Has ts) lines.now.ids.keys → IfOk result (StepFits ts) }
{
    match rule {
        Rule::Rw => Ok(Step::Rw {
            item,
            formula: lines.reference(words)?,
        }),
        Rule::Part => Ok(Step::Part {
            item,
            part: words.count()?,
        }),
        Rule::Subst => {
            let from = lines.reference(words)?;
            let to = lines.reference(words)?;
            let target = words.count()?;
            Ok(Step::Subst {
                item,
                from,
                to,
                target,
            })
        }
        Rule::IteParts => Ok(Step::IteParts { item }),
        Rule::Range => Ok(Step::Range { item }),
        Rule::Table => Ok(Step::Table {
            item,
            clause: lines.reference(words)?,
        }),
        _ => read_word(alloc, words, rule, item),
    }
}

/// The step of a line on a word.
fn read_word(alloc: Global, words: &mut Words<'_>, rule: Rule, word: u32) -> Result<Step, Fault>
    ensures fits { (ts : List Tree) → IfOk result (StepFits ts) }
{
    match rule {
        Rule::Mul => Ok(Step::Mul {
            word,
            by: words.integer()?,
        }),
        Rule::Add => {
            let right = words.count()?;
            let names = words.names(alloc, Sort::Bool)?;
            Ok(Step::Add {
                left: word,
                right,
                names,
            })
        }
        Rule::Cmp => {
            let bound = words.integer()?;
            let names = words.names(alloc, Sort::Bool)?;
            Ok(Step::Cmp { word, bound, names })
        }
        Rule::Eqc => {
            let bound = words.integer()?;
            let names = words.names(alloc, Sort::Bool)?;
            Ok(Step::Eqc { word, bound, names })
        }
        _ => Err(Fault::Malformed),
    }
}
