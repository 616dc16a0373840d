//! What halts a search.

use race_word::{PoolEnd, Seen};

/// What halts a search at a lemma.
#[derive(Clone, Copy, PartialEq, Eq, Debug)]
pub enum Halt {
    /// A winner was seen, of a place on the chain with another branch.
    Cancelled(Seen),
    /// The lemma's ticket is past the pool.
    Pool(PoolEnd),
}
