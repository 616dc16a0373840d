//! Lines of a refutation as steps.
ghost use Rattle.std.specs.Prelude.{◌≡◌, ◌+◌, ℕ, List, [], ◌∷◌, ◌++◌, All, IfOk, OnOk, length, reverse, true};
ghost use Rattle.qterm.specs.declared.name.Name.{Name};
ghost use Rattle.qterm.specs.declared.name.Sort.TheVariants as sort;
ghost use Rattle.qterm.specs.Tree.{Tree, False};
ghost use Rattle.qterm.specs.Store.{HasSort, Extends};
ghost use Rattle.rup.specs.declared.literal.Lit.{Lit as Numbered};
ghost use Rattle.sat_core.specs.Lines.{refutes};
ghost use Rattle.tac_cert.specs.Accepts.{as_items};
ghost use Rattle.tac_cert.specs.declared.cert.Step.TheVariants as step;
ghost use Rattle.proof_conv.specs.Leaves.{StepsLeave};
ghost use Rattle.sat_clauses.specs.Coding.{AreBelow, AllBelow, AreRead, AreDifferent};
ghost use Rattle.sat_lines.specs.Terms.{StandFor};
ghost use Rattle.sat_lines.specs.Lines.{LinesBelow, IsLineStep, AreLineSteps};

use crate::terms::clause_term;
use qterm::Store;
use sat_clauses::Numbers;
use sat_core::RupLine;
use sqlite_items::Items;
use std::alloc::{AllocError, Global};
use tac_cert::Step;

/// The steps that lead from formulas that are clauses to `false` alone, by the lines of a refutation of their numbered clauses.
///
/// Want of memory stands for more items than 32 bits can number.
pub fn refutation(
    alloc: Global,
    store: &mut Store,
    numbers: &Numbers,
    count: usize,
    lines: Vec<RupLine>,
) -> Result<Items<Step>, AllocError>
    requires vars { All (HasSort sort.Bool store.old) numbers.now }
    requires below { LinesBelow (length numbers.now) lines.items }
    ensures leads { IfOk result (λ steps. (f : ℕ → Name) (cs : List Tree) (known : List (List Numbered)) → StandFor store.old numbers.now f → AreDifferent (length numbers.now) f → length cs ≡ count → AreRead f cs known → AllBelow (length numbers.now) known → refutes known lines.items ≡ true → StepsLeave store.new (as_items cs) steps (as_items (False ∷ []))) }
    ensures extends { Extends store.old store.new }
{
    let size = lines.len();
    let last = last_item(count, size)?;
    let mut steps = line_steps(alloc, store, numbers, lines)?;
    keep_alone(alloc, &mut steps, last)?;
    Ok(steps)
}

/// The step that keeps one item alone, behind the others.
fn keep_alone(alloc: Global, steps: &mut Items<Step>, last: u32) -> Result<(), AllocError>
    ensures { OnOk result (steps.new ≡ steps.old ++ step.Keep (last ∷ []) ∷ []) }
{
    let mut kept = Items::new(alloc);
    kept.push(last)?;
    steps.push(Step::Keep { items: kept })?;
    Ok(())
}

/// The number of the last item.
fn last_item(count: usize, lines: usize) -> Result<u32, AllocError>
    ensures { IfOk result (λ n. n ≡ count + lines) }
{
    match count.checked_add(lines) {
        Some(total) => if total > u32::MAX as usize {
            Err(AllocError)
        } else {
            Ok(total as u32)
        },
        None => Err(AllocError),
    }
}

/// The steps of lines, one by one.
fn line_steps(
    alloc: Global,
    store: &mut Store,
    numbers: &Numbers,
    lines: Vec<RupLine>,
) -> Result<Items<Step>, AllocError>
    requires vars { All (HasSort sort.Bool store.old) numbers.now }
    requires below { LinesBelow (length numbers.now) lines.items }
    ensures steps { IfOk result (λ steps. (f : ℕ → Name) → StandFor store.old numbers.now f → AreLineSteps store.new f lines.items steps) }
    ensures extends { Extends store.old store.new }
{
    let mut left = turned(lines);
    let mut steps = Items::new(alloc);
    while let Some(line) = left.pop() {
        let step = line_step(alloc, store, numbers, line)?;
        steps.push(step)?;
    }
    Ok(steps)
}

/// The lines in the other order.
fn turned(mut lines: Vec<RupLine>) -> Items<RupLine>
    ensures { result ≡ reverse lines.items }
{
    lines.reverse();
    Items::from_vec(lines)
}

/// The step of a line.
fn line_step(
    alloc: Global,
    store: &mut Store,
    numbers: &Numbers,
    line: RupLine,
) -> Result<Step, AllocError>
    requires vars { All (HasSort sort.Bool store.old) numbers.now }
    requires below { AreBelow (length numbers.now) line.clause }
    ensures step { IfOk result (λ s. (f : ℕ → Name) → StandFor store.old numbers.now f → IsLineStep store.new f line s) }
    ensures extends { Extends store.old store.new }
{
    let RupLine { clause, hints } = line;
    let id = clause_term(alloc, store, numbers, clause.lits())?;
    Ok(Step::Rup {
        clause: id,
        hints: Items::from_vec(hints),
    })
}
