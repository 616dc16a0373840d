//! Restarts.
//!
//! After some lemmas the search goes back to where no level was started, so that it decides anew by the scores; each variable
//! keeps its last value for that. It needs a state that is ready for propagation, and keeps it: at the first decision each
//! clause was held by the literals before it.
ghost use Rattle.std.specs.Prelude.{◌≡◌, List, ℕ, [], IfOk, OnOk, IfSome, IfNone, Some, slice_get};
ghost use Rattle.rup.specs.declared.literal.Lit.{Lit};
ghost use Rattle.sat_core.specs.declared.watches.Pair.{Pair};
ghost use Rattle.sat_core.specs.Levels.{Ready};
ghost use Rattle.sat_core.specs.Scoring.{Offers};

use crate::backtrack::back_to;
use crate::scores::Scores;
use crate::trail::Trail;
use crate::tuning::RESTART_LEMMAS;
use std::alloc::AllocError;

/// When the search starts again: by the Luby sequence 1, 1, 2, 1, 1, 2, 4, 1, .., in the form in which Knuth makes it, of
/// the number of a run and its term.
#[derive(Drop)]
pub struct Restarts {
    run: u64,
    term: u64,
    left: u64,
}

impl Restarts {
    pub fn new() -> Restarts {
        Restarts {
            run: 1,
            term: 1,
            left: RESTART_LEMMAS,
        }
    }

    /// Counts a lemma, and starts again where it is time. Answers the index of the trail from which propagation is to go on.
    pub fn count(
        &mut self,
        trail: &mut Trail,
        scores: &mut Scores,
        at: usize,
    ) -> Result<usize, AllocError>
        requires ready { (known : List (List Lit)) × ((watches : List Pair × List (List ℕ)) × Ready known watches trail.old at) }
        requires offers { Offers scores.old trail.old }
        ensures ready { IfOk result (λ next. (known : List (List Lit)) (watches : List Pair × List (List ℕ)) → Ready known watches trail.old at → Ready known watches trail.new next) }
        ensures vars { OnOk result (trail.new.0 ≡ trail.old.0) }
        ensures offers { OnOk result (Offers scores.new trail.new) }
    {
        if self.left > 0 {
            self.left -= 1;
            return Ok(at);
        }
        self.next_term();
        self.left = RESTART_LEMMAS.saturating_mul(self.term);
        restart(trail, scores, at)
    }

    /// Goes on to the next term of the sequence. A run ends with the largest power of 2 that divides its number.
    fn next_term(&mut self) {
        if self.term == self.run & self.run.wrapping_neg() {
            self.run = self.run.saturating_add(1);
            self.term = 1;
        } else {
            self.term = self.term.saturating_mul(2);
        }
    }
}

/// Goes back to where no level was started.
fn restart(trail: &mut Trail, scores: &mut Scores, at: usize) -> Result<usize, AllocError>
    requires ready { (known : List (List Lit)) × ((watches : List Pair × List (List ℕ)) × Ready known watches trail.old at) }
    requires offers { Offers scores.old trail.old }
    ensures ready { IfOk result (λ next. (known : List (List Lit)) (watches : List Pair × List (List ℕ)) → Ready known watches trail.old at → Ready known watches trail.new next) }
    ensures vars { OnOk result (trail.new.0 ≡ trail.old.0) }
    ensures offers { OnOk result (Offers scores.new trail.new) }
{
    match first_start(trail) {
        None => Ok(at),
        Some(start) => {
            back_to(trail, scores, start)?;
            trail.keep_levels(0);
            Ok(start)
        }
    }
}

/// Where the first level starts, if there is one.
fn first_start(trail: &Trail) -> Option<usize>
    ensures { result ≡ slice_get trail.now.1.1.1 0 }
{
    trail.starts().first().copied()
}
