//! The canonical list of a canonical list with its names shifted.
ghost use Rattle.std.specs.Prelude.{◌≡◌, All, IfOk, IfErr, Ok};
ghost use Rattle.qterm.specs.Store.{HasSort, Extends, trees_of};
ghost use Rattle.qterm.specs.declared.name.Sort.TheVariants.{Bool};
ghost use Rattle.qlin.specs.CanonList.{canon_list};
ghost use Rattle.tac_cert.specs.Accepts.{as_items};
ghost use Rattle.goal_depth.specs.Depths.{AreShallow};
ghost use Rattle.proof_conv.specs.Leaves.{StepsLeave};
ghost use Rattle.tac_normal.specs.Normal.{IsNormal, IsNotNormal, IsWithoutLimit};

use model_conv::LiftStep;
use qterm::{Store, TermId, TermIds};
use reduce_base::{Fault, Listed, list_goal};
use shift_lists::{lifting, shift_names};
use shift_steps::certify_shifts;
use sqlite_items::Items;
use std::alloc::{AllocError, Global};
use tac_cert::Step;

/// The canonical list of a goal's canonical list with its names shifted, with the steps of a certificate that lead to it from the goal's
/// formulas, and the steps that carry its models back.
#[derive(Drop)]
pub(crate) struct Normal {
    pub formulas: TermIds,
    pub steps: Items<Step>,
    pub lifts: Items<LiftStep>,
}

/// Shifts the names of a goal's canonical list whose lower bounds aren't 0, and tells the canonical list of all this.
pub(crate) fn normalize(
    alloc: Global,
    store: &mut Store,
    goal: &[TermId],
    listed: Listed,
) -> Result<Normal, Fault>
    requires goal { All (HasSort Bool store.old) goal.now }
    requires shallow { AreShallow (trees_of store.old goal.now) }
    requires formulas { All (HasSort Bool store.old) listed.formulas }
    requires canonical { canon_list (trees_of store.old goal.now) ≡ Ok (trees_of store.old listed.formulas) }
    requires leads { StepsLeave store.old (as_items (trees_of store.old goal.now)) listed.steps (as_items (trees_of store.old listed.formulas)) }
    ensures normal { IfOk result (IsNormal store.new (trees_of store.old goal.now) (trees_of store.old listed.formulas)) }
    ensures fault { IfErr result (IsNotNormal store.new (trees_of store.old goal.now) (trees_of store.old listed.formulas)) }
    ensures extends { Extends store.old store.new }
{
    let Listed {
        formulas,
        mut steps,
    } = listed;
    let shifted = shift_names(alloc, store, goal, formulas.as_slice())?;
    let turned = certify_shifts(
        alloc,
        store,
        goal,
        formulas.as_slice(),
        shifted.shifts.as_slice(),
    )?;
    steps.append(turned)?;
    let lifts = lifting(alloc, shifted.shifts.as_slice())?;
    match list_goal(alloc, store, shifted.formulas.as_slice(), usize::MAX) {
        Ok(last) => {
            steps.append(last.steps)?;
            Ok(Normal {
                formulas: last.formulas,
                steps,
                lifts,
            })
        }
        Err(fault) => Err(without_limit(fault)),
    }
}

/// Why a goal has no canonical list, where there is no limit on its size: no count is above the largest.
fn without_limit(fault: Fault) -> Fault
    ensures { IsWithoutLimit fault result }
{
    match fault {
        Fault::TooLarge(_) => Fault::Memory(AllocError),
        other => other,
    }
}
