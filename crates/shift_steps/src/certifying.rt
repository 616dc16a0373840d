//! All steps that shift names.
ghost use Rattle.std.specs.Prelude.{◌≡◌, All, IfOk, Ok};
ghost use Rattle.qterm.specs.declared.name.Sort.TheVariants.{Bool};
ghost use Rattle.qterm.specs.Store.{HasSort, Extends, trees_of};
ghost use Rattle.qlin.specs.CanonList.{canon_list};
ghost use Rattle.qsubst.specs.Substitution.{replaced_each};
ghost use Rattle.tac_cert.specs.Accepts.{as_items};
ghost use Rattle.goal_depth.specs.Depths.{AreShallow};
ghost use Rattle.proof_conv.specs.Leaves.{StepsLeave};
ghost use Rattle.shift_lists.specs.Shifts.{images_of, AreShifts};

use crate::defining::define_all;
use crate::replacing::replace_all;
use crate::trace::Trace;
use qterm::{Store, TermId};
use shift_lists::Shift;
use sqlite_items::Items;
use std::alloc::{AllocError, Global};
use tac_cert::Step;

/// The steps that lead from the canonical list of a goal to the list with its names shifted, which is within the limits on depth.
pub fn certify_shifts(
    alloc: Global,
    store: &mut Store,
    _goal: &[TermId],
    list: &[TermId],
    shifts: &[Shift],
) -> Result<Items<Step>, AllocError>
    requires goal { All (HasSort Bool store.old) _goal.now }
    requires shallow { AreShallow (trees_of store.old _goal.now) }
    requires list { All (HasSort Bool store.old) list.now }
    requires canonical { canon_list (trees_of store.old _goal.now) ≡ Ok (trees_of store.old list.now) }
    requires shifts { AreShifts (trees_of store.old _goal.now) (trees_of store.old list.now) shifts.now }
    ensures leads { IfOk result (λ steps. StepsLeave store.new (as_items (trees_of store.old list.now)) steps (as_items (replaced_each (images_of shifts.now) (trees_of store.old list.now)))) }
    ensures shallow { AreShallow (replaced_each (images_of shifts.now) (trees_of store.old list.now)) }
    ensures extends { Extends store.old store.new }
{
    store.is_lawful();
    if list.len() > u32::MAX as usize {
        return Err(AllocError);
    }
    let mut trace = Trace {
        steps: Items::new(alloc),
        count: list.len() as u32,
    };
    let turns = define_all(alloc, store, &mut trace, shifts)?;
    let numbers = replace_all(alloc, store, &mut trace, &turns, list)?;
    let Trace {
        mut steps,
        count: _,
    } = trace;
    steps.push(Step::Keep { items: numbers })?;
    Ok(steps)
}
