//! What a run hands back.
ghost use Rattle.std.specs.Prelude.{◌≡◌};
ghost use Rattle.lang_runs.specs.declared.ran.RunStop.TheVariants as stops;

use deriv::Deriv;
use model_conv::{Discarded, ModelConv};
use proof_conv::ProofConv;
use qgoal::Goal;
use race_word::Seen;
use sqlite_items::Items;
use std::alloc::AllocError;

/// A success: goals, with a converter of models and one of certificates, which have to be spent, and the derivation.
pub struct Ran {
    /// The goals.
    pub goals: Items<Goal>,
    /// How many splits stand above each of them.
    pub above: Items<u32>,
    /// It carries models of the goals back.
    pub models: ModelConv,
    /// It makes a certificate of those of the goals.
    pub proofs: ProofConv,
    /// How it came to them.
    pub deriv: Deriv,
}

/// Why there is no success.
#[derive(Drop)]
pub enum RunStop {
    /// The strategy failed, by this derivation.
    Failed(Deriv),
    /// A winner was seen, of a place on the chain with another branch.
    Cancelled { seen: Seen },
    /// There was no memory.
    Memory,
}

impl From<AllocError> for RunStop {
    ghost from_gives = { λ refused given. given ≡ stops.Memory };

    fn from(_refused: AllocError) -> RunStop {
        RunStop::Memory
    }
}

/// Spends both converters without a use of them.
pub fn discard(models: ModelConv, proofs: ProofConv, why: Discarded) {
    models.discard(why);
    proofs.discard(why);
}
