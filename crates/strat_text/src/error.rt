//! What is wrong with the text of a strategy.
ghost use Rattle.std.specs.Prelude.{◌≡◌};
ghost use Rattle.strat_text.specs.declared.error.StratError.TheVariants.{Memory};

use std::alloc::AllocError;
use thiserror::Error;

/// Why an s-expression is no strategy, with the place in its bytes, counted from 0.
#[derive(Clone, Copy, Debug, PartialEq, Eq, Error)]
pub enum StratError {
    /// A name that isn't in the list of names, at the name.
    #[error("unknown reducer at byte {0}")]
    UnknownReducer(usize),
    /// A simple symbol that stands as a probe and is the name of none, at the symbol.
    #[error("unknown probe at byte {0}")]
    UnknownProbe(usize),
    /// A keyword that stands as a parameter and is none, at the keyword.
    #[error("unknown parameter at byte {0}")]
    UnknownParam(usize),
    /// A form of another shape, a form past the greatest depth, or a number outside its range, at the form or number.
    #[error("bad strategy at byte {0}")]
    BadStrategy(usize),
    #[error("out of memory")]
    Memory(AllocError),
}

impl From<AllocError> for StratError {
    ghost from_gives = { λ cause e. e ≡ Memory cause };

    fn from(cause: AllocError) -> StratError {
        StratError::Memory(cause)
    }
}
