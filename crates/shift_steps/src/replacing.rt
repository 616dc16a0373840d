//! The steps that replace the shifted names in formulas.
ghost use Rattle.std.specs.Prelude.{◌≡◌, ◌+◌, All, IfOk};
ghost use Rattle.std.specs.HashMap.{get};
ghost use Rattle.qterm.specs.Store.{Has, tree_at, trees_of};
ghost use Rattle.qwalk.specs.Walk.{same_id};
ghost use Rattle.shift_steps.specs.Replacing.{Replaces, ShiftsOn, AllShift};

use crate::defining::Turn;
use crate::trace::Trace;
use qsubst::names_of;
use qterm::{Store, TermId};
use sqlite_items::Items;
use std::alloc::{AllocError, Global};
use std::collections::HashMap;
use tac_cert::Step;

/// Replaces the shifted names in each formula, where the formulas are the first items. What is told are the numbers of the items that the
/// formulas become.
pub(crate) fn replace_all(
    alloc: Global,
    store: &Store,
    trace: &mut Trace,
    turns: &HashMap<TermId, Turn>,
    list: &[TermId],
) -> Result<Items<u32>, AllocError>
    requires has { All (Has store.now) list.now }
    ensures { IfOk result (AllShift store.now (get same_id turns.now) trace.old trace.new (trees_of store.now list.now)) }
{
    let mut numbers = Items::new(alloc);
    for at in 0..list.len() {
        let first = number_of(at)?;
        let last = replace_names(alloc, store, trace, turns, list[at], first)?;
        numbers.push(last)?;
    }
    Ok(numbers)
}

/// Replaces the shifted names in a formula, the item of that number. What is told is the number of the item that it becomes.
fn replace_names(
    alloc: Global,
    store: &Store,
    trace: &mut Trace,
    turns: &HashMap<TermId, Turn>,
    formula: TermId,
    number: u32,
) -> Result<u32, AllocError>
    requires has { Has store.now formula }
    ensures { IfOk result (λ last. ShiftsOn store.now (get same_id turns.now) trace.old trace.new number last (tree_at store.now formula)) }
{
    store.is_distinct();
    let names = names_of(alloc, store, &[formula])?;
    let mut last = number;
    for name in names.as_slice() {
        last = replace_name(trace, turns, *name, last)?;
    }
    Ok(last)
}

/// Replaces a name in an item, where it is shifted. What is told is the number of the item that it becomes.
fn replace_name(
    trace: &mut Trace,
    turns: &HashMap<TermId, Turn>,
    name: TermId,
    target: u32,
) -> Result<u32, AllocError>
    ensures { IfOk result (Replaces (get same_id turns.now name) name trace.old trace.new target) }
{
    match turns.get(&name).copied() {
        Some(turn) => {
            let number = trace.push(Step::Subst {
                item: turn.equation,
                from: name,
                to: turn.term,
                target,
            })?;
            Ok(number)
        }
        None => Ok(target),
    }
}

/// The number of the item at a place, from 0.
fn number_of(place: usize) -> Result<u32, AllocError>
    ensures { IfOk result (λ number. number ≡ place + 1) }
{
    if place >= u32::MAX as usize {
        return Err(AllocError);
    }
    Ok(place as u32 + 1)
}
