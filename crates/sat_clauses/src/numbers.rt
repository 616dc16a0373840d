//! Names, numbered by their places in a list.
ghost use Rattle.std.specs.Prelude.{◌≡◌, ◌<◌, ℕ, List, length, Contains, IfOk};
ghost use Rattle.std.proofs.Common.{get_or};
ghost use Rattle.qwalk.specs.Count.{AreApart};

use indexmap::IndexSet;
use qterm::TermId;
use std::alloc::{AllocError, Global};
use std::marker::Model;

/// The ids of the terms of names, each numbered by its place. Contracts see the list.
#[derive(Drop)]
pub struct Numbers {
    vars: IndexSet<TermId>,
}

impl Model for Numbers {
    ghost use Rattle.std.specs.Prelude.{List, ℕ};
    ghost use Rattle.std.specs.Prelude.{◌<◌, ◌^◌, length};

    ghost Value = { List ℕ };

    ghost view = { λ n. n.vars.keys };

    ghost invariant = { λ n. length n.vars.keys < 2 ^ 32 };
}

/// The ids, each numbered by its place.
///
/// Want of memory stands for more ids than 32 bits can number.
pub fn numbers_of(alloc: Global, vars: &[TermId]) -> Result<Numbers, AllocError>
    requires { AreApart vars.now }
    ensures { IfOk result (λ n. n ≡ vars.now) }
{
    let mut numbers = IndexSet::new(alloc);
    for id in vars {
        numbers.insert(*id)?;
    }
    if numbers.len() > u32::MAX as usize {
        return Err(AllocError);
    }
    Ok(Numbers { vars: numbers })
}

impl Numbers {
    /// How many ids there are.
    pub fn count(&self) -> u32
        ensures { result ≡ length self.now }
    {
        self.vars.len() as u32
    }

    /// The id of a number.
    pub fn id(&self, number: u32) -> TermId
        requires within { number < length self.now }
        ensures { result ≡ get_or self.now number 0 }
    {
        self.vars.as_slice()[number as usize]
    }

    /// The number of an id that is there.
    pub(crate) fn number(&self, id: TermId) -> u32
        requires there { Contains self.now id }
        ensures within { result < length self.now }
        ensures place { get_or self.now result 0 ≡ id }
    {
        let _count = self.count();
        self.place(id) as u32
    }

    /// The place of an id that is there.
    fn place(&self, id: TermId) -> usize
        requires there { Contains self.now id }
        ensures within { result < length self.now }
        ensures place { get_or self.now result 0 ≡ id }
    {
        match self.vars.get_index_of(&id) {
            Some(place) => place,
            None => unreachable!(),
        }
    }
}
