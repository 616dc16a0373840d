//! The laws of splits, each the contract of a function that does nothing.
ghost use Rattle.bit_lists.specs.Law.{GoUp, GoDown, AreCarried, StandInTurn};

use qlist_laws::keeps_models;

/// Models go up and down between a goal and its canonical list with the names split, and the steps of lifting carry those of the latter
/// back.
pub fn splits_keep_models()
    ensures up { GoUp }
    ensures down { GoDown }
    ensures carried { AreCarried }
{
    keeps_models();
}

/// Splits all at once are the first and then the others.
pub fn splits_stand_in_turn()
    ensures { StandInTurn }
{}
