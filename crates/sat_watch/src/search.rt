//! The search.
ghost use Rattle.std.specs.Prelude.{◌≡◌, IfOk};
ghost use Rattle.race_word.specs.Runner.{IsOf};
ghost use Rattle.race_word.specs.Keeps.{Keeps};
ghost use Rattle.sat_watch.specs.Deciding.{IsDecided};

use crate::halt::Halt;
use crate::ticker::Ticker;
use race_word::{Racer, Races};
use sat_core::{Solved, Solver};
use std::alloc::{AllocError, Global};

/// What a search comes to, with the number of its lemmas and what halted it.
#[derive(Drop)]
pub struct Decision {
    /// What it comes to.
    pub solved: Solved,
    /// How many lemmas were learnt, where it wasn't halted.
    pub lemmas: u64,
    /// What halted it.
    pub halt: Option<Halt>,
}

/// Decides whether the clauses have a model, within a number of lemmas, with one poll and then one draw for each of them.
///
/// Where `solved` is halted, and nothing halted it, the lemmas are more than 64 bits can number.
pub fn decide(
    alloc: Global,
    solver: Solver,
    limit: Option<u64>,
    races: &Races,
    racer: &mut Racer,
) -> Result<Decision, AllocError>
    requires { IsOf races.now racer.old }
    ensures decided { IfOk result (IsDecided solver.0 solver.1 limit racer.old racer.new) }
    ensures keeps { Keeps racer.old racer.new }
{
    let mut watch = Ticker {
        races,
        racer,
        lemmas: 0,
        halt: None,
    };
    watched(alloc, solver, limit, &mut watch)
}

/// The search of a solver, watched by a racer that has counted no lemma yet.
fn watched(
    alloc: Global,
    solver: Solver,
    limit: Option<u64>,
    watch: &mut Ticker<'_>,
) -> Result<Decision, AllocError>
    requires new { watch.old.lemmas ≡ 0 }
    ensures same_reference { watch.new.racer.ghost_name ≡ watch.old.racer.ghost_name }
    ensures keeps { Keeps watch.old.racer.now watch.new.racer.now }
    ensures decided { IfOk result (IsDecided solver.0 solver.1 limit watch.old.racer.now watch.new.racer.now) }
{
    let solved = solver.solve(alloc, limit, watch)?;
    Ok(Decision {
        solved,
        lemmas: watch.lemmas,
        halt: watch.halt,
    })
}
