//! Why there is no canonical form.
ghost use Rattle.std.specs.Prelude.{◌≡◌};
ghost use Rattle.qcanon.specs.declared.error.CanonError.TheVariants.{Memory};

use qterm::TermId;
use std::alloc::AllocError;

/// Why there is no canonical form.
#[derive(Debug, Drop)]
pub enum CanonError {
    /// This is the first subterm in postorder that has none: a number of its form, of its atom or of a negation leaves the
    /// range of 128 bits that is the same after a change of sign.
    TooWide { term: TermId },
    /// There was no memory.
    Memory(AllocError),
}

impl From<AllocError> for CanonError {
    ghost from_gives = { λ cause e. e ≡ Memory cause };

    fn from(cause: AllocError) -> CanonError {
        CanonError::Memory(cause)
    }
}
