//! Why a goal has no canonical list within its size.
ghost use Rattle.std.specs.Prelude.{◌≡◌};
ghost use Rattle.reduce_base.specs.declared.fault.Fault.TheVariants.{Memory};
ghost use Rattle.reduce_base.specs.Fault.{fault_of, stop_of};

use qcanon::CanonError;
use qterm::TermId;
use reducer_iface::{Cause, Stop};
use std::alloc::AllocError;

/// Why a goal has no canonical list within its size.
#[derive(Debug, Drop)]
pub enum Fault {
    /// This subterm is the first one in postorder that has no canonical form.
    TooWide(TermId),
    /// The canonical list of the goal has so many distinct subterms, which are too many.
    TooLarge(u64),
    /// There was no memory.
    Memory(AllocError),
}

impl From<AllocError> for Fault {
    ghost from_gives = { λ cause e. e ≡ Memory cause };

    fn from(cause: AllocError) -> Fault {
        Fault::Memory(cause)
    }
}

impl From<CanonError> for Fault {
    ghost from_gives = { λ cause e. e ≡ fault_of cause };

    fn from(cause: CanonError) -> Fault {
        match cause {
            CanonError::TooWide { term } => Fault::TooWide(term),
            CanonError::Memory(error) => Fault::Memory(error),
        }
    }
}

impl From<Fault> for Stop {
    ghost from_gives = { λ fault e. e ≡ stop_of fault };

    fn from(fault: Fault) -> Stop {
        match fault {
            Fault::TooWide(term) => Stop::Fail {
                cause: Cause::TooWide(term),
                lemmas: 0,
            },
            Fault::TooLarge(count) => Stop::Fail {
                cause: Cause::TooLarge(count),
                lemmas: 0,
            },
            Fault::Memory(_) => Stop::Memory,
        }
    }
}
