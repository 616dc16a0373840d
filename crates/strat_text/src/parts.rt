//! The parts of a form, by how many there have to be.
ghost use Rattle.strat_text.specs.Reading as spec;
ghost use Rattle.strat_text.specs.Given.{Gives};

use crate::error::StratError;
use sqlite_items::{Boxed, Items};
use std::alloc::Global;

/// The one part, of a form at this place.
pub(crate) fn one<T: Drop>(
    alloc: Global,
    mut parts: Items<T>,
    at: usize,
) -> Result<Boxed<T>, StratError>
    ensures { Gives result (spec.one_of at parts) }
{
    if parts.len() != 1 {
        return Err(StratError::BadStrategy(at));
    }
    let only = parts.remove(0);
    Ok(Boxed::new(alloc, only)?)
}

/// The two parts, of a form at this place.
pub(crate) fn two<T: Drop>(
    alloc: Global,
    mut parts: Items<T>,
    at: usize,
) -> Result<(Boxed<T>, Boxed<T>), StratError>
    ensures { Gives result (spec.two_of at parts) }
{
    if parts.len() != 2 {
        return Err(StratError::BadStrategy(at));
    }
    let first = Boxed::new(alloc, parts.remove(0))?;
    let second = Boxed::new(alloc, parts.remove(0))?;
    Ok((first, second))
}

/// The parts, of which a form at this place has at least so many.
pub(crate) fn at_least<T: Drop>(
    least: usize,
    parts: Items<T>,
    at: usize,
) -> Result<Items<T>, StratError>
    ensures { Gives result (spec.least_of least at parts) }
{
    if parts.len() < least {
        return Err(StratError::BadStrategy(at));
    }
    Ok(parts)
}
