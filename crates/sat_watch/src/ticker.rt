//! A racer that watches a search.
ghost use Rattle.race_word.specs.Runner.{IsOf};

use crate::halt::Halt;
use race_word::{Racer, Races};

/// A racer that polls and then draws for each lemma, with the number of lemmas so far and what halted the search.
#[derive(Drop)]
pub(crate) struct Ticker<'a> {
    pub races: &'a Races,
    pub racer: &'a mut Racer,
    pub lemmas: u64,
    pub halt: Option<Halt>,
    ghost known: { IsOf races.now racer.now },
}
