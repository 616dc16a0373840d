// What holds of the machine over every list of steps. Nothing is run: each function stands for the law that it ensures.
ghost use Rattle.race_core.specs.Chains.{ChainsFollowParents};
ghost use Rattle.race_core.specs.Settled.{CollectsSettled};

/// At each step that collects a race, whatever steps came before: either the race's word names a branch, exactly that
/// one is won and each other is lost, failed or cancelled; or the word is 0, and each branch failed or was cancelled
/// by a race of the parent's chain.
pub fn collected_races_are_settled()
    ensures { CollectsSettled }
{}

/// The chain of a place is the place itself and the chain of its race's parent; that of the root is empty.
pub fn chains_follow_parents()
    ensures { ChainsFollowParents }
{}
