//! The success where the clauses have a model.
ghost use Rattle.std.specs.Prelude.{◌≡◌, [], ◌∷◌, ◌++◌, IfOk, OnOk};
ghost use Rattle.qterm.specs.Store.{trees_of};
ghost use Rattle.tac_cert.specs.Accepts.{as_items};
ghost use Rattle.tac_cert.specs.declared.cert.Step.TheVariants as step;
ghost use Rattle.proof_conv.specs.Leaves.{StepsLeave};
ghost use Rattle.sat_answers.specs.Answers.{IsAnswered};
ghost use Rattle.sat_answers.specs.Coded.{IsCoded, HasValues};

use crate::sets::set_steps;
use crate::success::one_answer;
use qgoal::Goal;
use qterm::{Store, TermId, TermIds};
use reducer_iface::Applied;
use sat_clauses::Numbers;
use sat_rows::found_values_are_a_model;
use sqlite_items::Items;
use std::alloc::{AllocError, Global};
use tac_cert::Step;

/// The success where the clauses of a goal's list have these values as a model: one goal without formulas. The steps lead from the goal
/// to its list.
pub fn found(
    alloc: Global,
    store: &Store,
    goal: &Goal,
    list: &[TermId],
    steps: Items<Step>,
    numbers: &Numbers,
    values: &[bool],
    lemmas: u64,
) -> Result<Applied, AllocError>
    requires values { HasValues store.now numbers.now (trees_of store.now list.now) values.now }
    requires leads { StepsLeave store.now (as_items (trees_of store.now goal.now.formulas)) steps (as_items (trees_of store.now list.now)) }
    ensures answered { IfOk result (IsAnswered store.now (trees_of store.now goal.now.formulas) (trees_of store.now list.now) goal.now.precision lemmas) }
{
    found_values_are_a_model();
    let lifts = set_steps(alloc, store, numbers, values)?;
    let mut all = steps;
    keep_none(alloc, &mut all)?;
    let subgoal = Goal {
        formulas: TermIds::from_vec(Vec::new(alloc)),
        precision: goal.precision,
    };
    let applied = one_answer(alloc, subgoal, lifts, all, lemmas)?;
    Ok(applied)
}

/// The step that keeps no item, behind the others.
fn keep_none(alloc: Global, steps: &mut Items<Step>) -> Result<(), AllocError>
    ensures { OnOk result (steps.new ≡ steps.old ++ step.Keep [] ∷ []) }
{
    steps.push(Step::Keep {
        items: Items::new(alloc),
    })?;
    Ok(())
}
