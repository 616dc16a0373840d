//! The watch of a search.
ghost use Rattle.std.specs.Prelude.{MatchOption};
ghost use Rattle.race_word.specs.Runner.{IsOf};
ghost use Rattle.race_word.specs.Keeps.{Keeps};
ghost use Rattle.sat_watch.specs.Ticks.{HasPassed, HasHalted};
ghost use Rattle.sat_watch.specs.Watching.{IsTold};

use crate::halt::Halt;
use crate::ticker::Ticker;
use race_word::{Racer, Races};
use rup::Clause;
use sat_core::Watch;

impl Watch for Ticker<'_> {
    ghost says = { λ before _ goes_on after. IsTold before goes_on after };

    fn on_lemma(&mut self, _clause: &Clause) -> bool {
        let next = self.lemmas.checked_add(1);
        match next {
            None => {
                self.halt = None;
                false
            }
            Some(lemmas) => {
                self.lemmas = lemmas;
                self.halt = tick(self.races, self.racer);
                self.halt.is_none()
            }
        }
    }
}

/// One poll and then one draw. A winner that was seen comes before the end of the pool.
fn tick(races: &Races, racer: &mut Racer) -> Option<Halt>
    requires of { IsOf races.now racer.old }
    ensures keeps { Keeps racer.old racer.new }
    ensures ticked { MatchOption result (HasPassed 1 racer.old racer.new) (HasHalted 1 racer.old racer.new) }
{
    let seen = racer.poll(races);
    let drawn = racer.draw(races);
    match seen {
        Some(winner) => Some(Halt::Cancelled(winner)),
        None => match drawn {
            Ok(_ticket) => None,
            Err(end) => Some(Halt::Pool(end)),
        },
    }
}
