//! Names are split into bits.
ghost use Rattle.std.specs.Prelude.{◌≡◌, ◌≤◌, All, IfOk, IfErr, None};
ghost use Rattle.qterm.specs.Store.{HasSort, Extends, trees_of};
ghost use Rattle.qterm.specs.declared.name.Sort.TheVariants.{Bool};
ghost use Rattle.bit_lists.specs.declared.splitting.SplitError.TheVariants.{Memory};
ghost use Rattle.bit_lists.specs.Splits.{refusal, negative, AreSplits};
ghost use Rattle.bit_lists.specs.Row.{split_list};
ghost use Rattle.bit_lists.specs.Steps.{IsRefused, AreSmall};

use crate::refusing::{Refusal, first_negative, first_refusal};
use crate::row::{closed, split_list};
use crate::splits::{Split, split_all};
use crate::taking::texts_in;
use name_bounds::ranges;
use qsubst::names_of;
use qterm::{Name, Store, TermId};
use std::alloc::{AllocError, Global};

/// Formulas with their names split, and the splits in name order.
#[derive(Debug, Drop)]
pub struct SplitList {
    /// The formulas.
    pub formulas: Vec<TermId>,
    /// The splits.
    pub splits: Vec<Split>,
    /// The first name with a negative upper bound. Where there is one, nothing is split, and `false` is the only formula.
    pub negative: Option<Name>,
}

/// Why names aren't split.
#[derive(Debug, Drop)]
pub enum SplitError {
    /// A name can't be.
    Refused(Refusal),
    /// There was no memory.
    Memory(AllocError),
}

impl From<AllocError> for SplitError {
    ghost from_gives = { λ cause e. e ≡ Memory cause };

    fn from(cause: AllocError) -> SplitError {
        SplitError::Memory(cause)
    }
}

/// The formulas of a list, in which each Int name whose upper bound isn't 1 is replaced by the sum of its bits, without the bounds of these
/// names, and then the bounds of the bits. The bits are fresh names that differ from those of the goal.
///
/// Each Int name must have the lower bound 0 and an upper bound of at most `most` binary digits. The first that hasn't is told as
/// `Refused`. At most 64 digits can be allowed.
pub fn split_names(
    alloc: Global,
    store: &mut Store,
    goal: &[TermId],
    list: &[TermId],
    most: usize,
) -> Result<SplitList, SplitError>
    requires goal { All (HasSort Bool store.old) goal.now }
    requires formulas { All (HasSort Bool store.old) list.now }
    requires most { most ≤ 64 }
    ensures allowed { IfOk result (λ s. refusal most (trees_of store.old list.now) ≡ None) }
    ensures splits { IfOk result (λ s. AreSplits (trees_of store.old goal.now) (trees_of store.old list.now) s.splits.items) }
    ensures split { IfOk result (λ s. trees_of store.new s.formulas.items ≡ split_list (trees_of store.old list.now) s.splits.items) }
    ensures formulas { IfOk result (λ s. All (HasSort Bool store.new) s.formulas.items) }
    ensures small { IfOk result (λ s. AreSmall s.splits.items) }
    ensures negative { IfOk result (λ s. s.negative ≡ negative (trees_of store.old list.now)) }
    ensures refused { IfErr result (IsRefused most (trees_of store.old list.now)) }
    ensures extends { Extends store.old store.new }
{
    let names = names_of(alloc, store, list)?;
    let table = ranges(alloc, store, list)?;
    match first_refusal(store, names.as_slice(), &table, most)? {
        Some(refusal) => Err(SplitError::Refused(refusal)),
        None => match first_negative(store, names.as_slice(), &table)? {
            Some(name) => {
                let formulas = closed(alloc, store)?;
                Ok(SplitList {
                    formulas,
                    splits: Vec::new(alloc),
                    negative: Some(name),
                })
            }
            None => {
                let mut taken = texts_in(alloc, store, goal)?;
                let splits = split_all(alloc, store, names.as_slice(), &table, &mut taken)?;
                let formulas = split_list(alloc, store, list, splits.as_slice())?;
                Ok(SplitList {
                    formulas,
                    splits,
                    negative: None,
                })
            }
        },
    }
}
