//! How models come back from a run on one of several goals.
ghost use Rattle.std.specs.Prelude.{◌≡◌, ◌<◌, ◌++◌, ◌∷◌, [], map, length, slice_index_or, IfOk};
ghost use Rattle.model_conv.specs.Conv.{after_each};

use crate::joined::{discard_models, with_models};
use model_conv::{Discarded, ModelConv};
use sqlite_items::Items;
use std::alloc::{AllocError, Global};

/// The converter of a run on the goal of that number, behind that of the part which gave the goal.
pub(crate) fn models_at(
    alloc: Global,
    first: ModelConv,
    place: usize,
    last: ModelConv,
) -> Result<ModelConv, AllocError>
    ensures { IfOk result (λ all. all ≡ after_each (slice_index_or first place [] ∷ []) (last ∷ [])) }
{
    let way = way_to(alloc, &first, place);
    first.discard(Discarded::Lost);
    match way {
        Ok(way) => along(alloc, way, last),
        Err(refused) => {
            last.discard(Discarded::Memory);
            Err(refused)
        }
    }
}

/// The converter of that goal alone. Where there is no such goal, it counts as want of memory.
fn way_to(alloc: Global, first: &ModelConv, place: usize) -> Result<ModelConv, AllocError>
    ensures { IfOk result (λ way. way ≡ slice_index_or first.now place [] ∷ []) }
{
    if place < first.subgoals() {
        let mut way = Items::new(alloc);
        let steps = first.steps(alloc, place)?;
        way.push(steps)?;
        Ok(ModelConv::of(way))
    } else {
        Err(AllocError)
    }
}

/// The converter of one goal with that of a run on it behind.
fn along(alloc: Global, way: ModelConv, last: ModelConv) -> Result<ModelConv, AllocError>
    ensures { IfOk result (λ all. all ≡ after_each way (last ∷ [])) }
{
    match with_models(Vec::new(alloc), last) {
        Ok(rest) => {
            if way.subgoals() == 1 {
                way.then_each(alloc, rest)
            } else {
                way.discard(Discarded::Memory);
                discard_models(rest, Discarded::Memory);
                Err(AllocError)
            }
        }
        Err(refused) => {
            way.discard(Discarded::Memory);
            Err(refused)
        }
    }
}
