//! Goals as text.
ghost use Rattle.std.specs.Prelude.{◌≡◌, ◌++◌, ◌+◌, map, All, IfOk, OnOk};
ghost use Rattle.qterm.specs.declared.term.TheConstants.{SUBTERMS};
ghost use Rattle.qterm.specs.Store.{Has, tree_at, trees_of};
ghost use Rattle.qgoal.specs.Goal.{HasGoal, goal_tree};
ghost use Rattle.answer_text.specs.Sizes.{capped, sizes_of, formulas_of, is_large};
ghost use Rattle.answer_text.specs.Goals as spec;

use crate::size::sizes;
use crate::term::{push_term, put};
use qgoal::{Goal, Precision};
use qterm::{SUBTERMS, Store, TermId};
use std::alloc::{AllocError, Global};

/// The text of goals: of each its precision, and a line for each formula. A formula whose tree has more than 1,048,576
/// nodes is written `(large)`.
#[tactic(auto, unfolding(crate::specs::Goals::goals_text))]
pub fn write_goals(alloc: Global, store: &Store, goals: &[Goal]) -> Result<Vec<u8>, AllocError>
    requires has { All (HasGoal store.now) goals.now }
    ensures { IfOk result (λ text. text.items ≡ spec.goals_text (map (goal_tree store.now) goals.now)) }
{
    let mut text = Vec::new(alloc);
    put(&mut text, b"(goals\n")?;
    push_goals(alloc, &mut text, store, goals)?;
    put(&mut text, b")\n")?;
    Ok(text)
}

/// Adds the lines of goals. The sizes of all formulas come from one walk, since goals share their terms.
fn push_goals(
    alloc: Global,
    text: &mut Vec<u8>,
    store: &Store,
    goals: &[Goal],
) -> Result<(), AllocError>
    requires has { All (HasGoal store.now) goals.now }
    ensures { OnOk result (text.new.items ≡ text.old.items ++ spec.goal_lines (map (goal_tree store.now) goals.now)) }
{
    let formulas = all_formulas(alloc, store, goals)?;
    let sizes = sizes(alloc, store, formulas.as_slice(), SUBTERMS + 1)?;
    push_each(alloc, text, store, goals, sizes.as_slice())
}

/// The formulas of all goals.
fn all_formulas(alloc: Global, store: &Store, goals: &[Goal]) -> Result<Vec<TermId>, AllocError>
    requires has { All (HasGoal store.now) goals.now }
    ensures all { IfOk result (λ v. v.items ≡ formulas_of goals.now) }
    ensures has { IfOk result (λ v. All (Has store.now) v.items) }
{
    let mut all = Vec::new(alloc);
    for goal in goals {
        all.extend_from_slice(goal.formulas.as_slice())?;
    }
    Ok(all)
}

/// Adds the lines of goals, whose formulas have these sizes, one goal after the other.
fn push_each(
    alloc: Global,
    text: &mut Vec<u8>,
    store: &Store,
    goals: &[Goal],
    sizes: &[usize],
) -> Result<(), AllocError>
    requires has { All (HasGoal store.now) goals.now }
    requires sizes { sizes.now ≡ sizes_of (SUBTERMS + 1) store.now (formulas_of goals.now) }
    ensures { OnOk result (text.new.items ≡ text.old.items ++ spec.goal_lines (map (goal_tree store.now) goals.now)) }
{
    let mut rest = sizes;
    for goal in goals {
        let (now, later) = rest.split_at(goal.formulas.len());
        push_goal(alloc, text, store, goal, now)?;
        rest = later;
    }
    Ok(())
}

/// Adds the lines of a goal.
fn push_goal(
    alloc: Global,
    text: &mut Vec<u8>,
    store: &Store,
    goal: &Goal,
    sizes: &[usize],
) -> Result<(), AllocError>
    requires has { HasGoal store.now goal.now }
    requires sizes { sizes.now ≡ sizes_of (SUBTERMS + 1) store.now goal.now.formulas }
    ensures { OnOk result (text.new.items ≡ text.old.items ++ spec.goal_text (goal_tree store.now goal.now)) }
{
    put(text, b"(goal ")?;
    put(text, precision_text(goal.precision))?;
    put(text, b"\n")?;
    push_formulas(alloc, text, store, goal.formulas.as_slice(), sizes)?;
    put(text, b")\n")?;
    Ok(())
}

/// Adds a line for each formula.
fn push_formulas(
    alloc: Global,
    text: &mut Vec<u8>,
    store: &Store,
    formulas: &[TermId],
    sizes: &[usize],
) -> Result<(), AllocError>
    requires has { All (Has store.now) formulas.now }
    requires sizes { sizes.now ≡ sizes_of (SUBTERMS + 1) store.now formulas.now }
    ensures { OnOk result (text.new.items ≡ text.old.items ++ spec.formula_lines (trees_of store.now formulas.now)) }
{
    for at in 0..formulas.len() {
        push_formula(alloc, text, store, formulas[at], sizes[at])?;
    }
    Ok(())
}

/// Adds the line of a formula of this size.
fn push_formula(
    alloc: Global,
    text: &mut Vec<u8>,
    store: &Store,
    formula: TermId,
    size: usize,
) -> Result<(), AllocError>
    requires has { Has store.now formula }
    requires size { size ≡ capped (SUBTERMS + 1) (tree_at store.now formula) }
    ensures { OnOk result (text.new.items ≡ text.old.items ++ spec.formula_line (tree_at store.now formula)) }
{
    put(text, b"  ")?;
    push_shown(alloc, text, store, formula, size > SUBTERMS)?;
    put(text, b"\n")?;
    Ok(())
}

/// Adds a formula, or the word for one that is large.
#[tactic(auto, unfolding(crate::specs::Goals::formula_text))]
fn push_shown(
    alloc: Global,
    text: &mut Vec<u8>,
    store: &Store,
    formula: TermId,
    large: bool,
) -> Result<(), AllocError>
    requires has { Has store.now formula }
    requires large { large ≡ is_large (tree_at store.now formula) }
    ensures { OnOk result (text.new.items ≡ text.old.items ++ spec.formula_text (tree_at store.now formula)) }
{
    if large {
        put(text, b"(large)")
    } else {
        push_term(alloc, text, store, formula)
    }
}

/// The word of a precision.
fn precision_text(precision: Precision) -> &'static [u8]
    ensures { result.now ≡ spec.precision_text precision }
{
    match precision {
        Precision::Precise => b"precise",
        Precision::Under => b"under",
        Precision::Over => b"over",
        Precision::Neither => b"neither",
    }
}
