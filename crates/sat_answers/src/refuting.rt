//! The success where the clauses have no model.
ghost use Rattle.std.specs.Prelude.{◌≡◌, [], ◌∷◌, IfOk};
ghost use Rattle.qterm.specs.Store.{trees_of, Extends};
ghost use Rattle.qterm.specs.Tree.{False};
ghost use Rattle.qgoal.specs.declared.precision.Precision.{Precision};
ghost use Rattle.qgoal.specs.Goal.{HasGoal};
ghost use Rattle.tac_cert.specs.Accepts.{as_items};
ghost use Rattle.proof_conv.specs.Leaves.{StepsLeave};
ghost use Rattle.sat_answers.specs.Answers.{IsAnswered};
ghost use Rattle.sat_answers.specs.Coded.{IsRefutation};

use crate::lemmas::check_within;
use crate::success::one_answer;
use qgoal::{Goal, Precision};
use qterm::{Store, Term, TermId, TermIds};
use reducer_iface::Applied;
use sat_clauses::Numbers;
use sat_core::RupLine;
use sat_lines::refutation;
use sat_rows::refuted_lists_have_no_model;
use sqlite_items::Items;
use std::alloc::{AllocError, Global};
use tac_cert::Step;

/// The success where the clauses of a goal's list are refuted by these lines: one goal with `false` alone. The steps lead from the goal
/// to its list.
///
/// Want of memory stands for a line with a variable that isn't one of the numbers.
pub fn refuted(
    alloc: Global,
    store: &mut Store,
    goal: &Goal,
    list: &[TermId],
    steps: Items<Step>,
    numbers: &Numbers,
    lines: Vec<RupLine>,
    lemmas: u64,
) -> Result<Applied, AllocError>
    requires refutes { IsRefutation store.old numbers.now (trees_of store.old list.now) lines.items }
    requires leads { StepsLeave store.old (as_items (trees_of store.old goal.now.formulas)) steps (as_items (trees_of store.old list.now)) }
    ensures answered { IfOk result (IsAnswered store.new (trees_of store.old goal.now.formulas) (trees_of store.old list.now) goal.now.precision lemmas) }
    ensures extends { Extends store.old store.new }
{
    refuted_lists_have_no_model();
    check_within(numbers, lines.as_slice())?;
    let mut all = steps;
    let last = refutation(alloc, store, numbers, list.len(), lines)?;
    all.append(last)?;
    let subgoal = false_goal(alloc, store, goal.precision)?;
    let applied = one_answer(alloc, subgoal, Items::new(alloc), all, lemmas)?;
    Ok(applied)
}

/// The goal with `false` alone.
fn false_goal(alloc: Global, store: &mut Store, precision: Precision) -> Result<Goal, AllocError>
    ensures formulas { IfOk result (λ h. trees_of store.new h.formulas ≡ False ∷ []) }
    ensures precision { IfOk result (λ h. h.precision ≡ precision) }
    ensures has { IfOk result (HasGoal store.new) }
    ensures extends { Extends store.old store.new }
{
    let id = store.intern(Term::False)?;
    let mut ids = Vec::new(alloc);
    ids.push(id)?;
    Ok(Goal {
        formulas: TermIds::from_vec(ids),
        precision,
    })
}
