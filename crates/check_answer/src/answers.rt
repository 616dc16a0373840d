//! Answers of checks.

use deriv::Cause;
use qeval::Model;
use qgoal::Goal;
use qterm::Name;
use sqlite_items::Items;
use tac_cert::Cert;

/// What a check answers, or the run of a strategy alone.
#[derive(Drop)]
pub enum Answer {
    /// This model makes all assertions true.
    Sat(Model),
    /// This certificate shows that no model does.
    Unsat(Cert),
    /// Neither is known.
    Unknown(Why),
    /// The strategy alone was run, and came to these goals.
    Subgoals(Items<Goal>),
    /// The strategy alone was run, and came to no goals.
    NoSubgoals(Why),
}

/// Why there is no other answer.
#[derive(Drop)]
pub enum Why {
    /// The strategy failed.
    Failed(Cause),
    /// Of these goals none is sat, and not all are unsat.
    Undecided(Items<Goal>),
    /// A number that carries the model back to the assertions, for this name, is outside 128 bits.
    LiftWide(Name),
    /// There was no memory.
    Memory,
}
