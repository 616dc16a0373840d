//! Why a script ends before its commands do.
ghost use Rattle.std.specs.Prelude.{◌≡◌};

use sexp_read::Failed;
use smt_words::{ScriptError, What};
use std::alloc::{AllocError, AllocFailed};

/// Why a script ends before its commands do.
#[derive(Clone, Copy, Debug, PartialEq, Eq)]
pub enum Stop {
    /// There is no memory.
    Memory,
    /// A command can't be done.
    Fault(ScriptError),
    /// The sink failed.
    WriteFault,
}

impl From<AllocError> for Stop {
    ghost use Rattle.script_shown.specs.declared.stop.Stop.TheVariants.{Memory};

    ghost from_gives = { λ _ e. e ≡ Memory };

    fn from(_: AllocError) -> Stop {
        Stop::Memory
    }
}

impl<T: Drop> From<AllocFailed<T>> for Stop {
    ghost use Rattle.script_shown.specs.declared.stop.Stop.TheVariants.{Memory};

    ghost from_gives = { λ _ e. e ≡ Memory };

    fn from(_: AllocFailed<T>) -> Stop {
        Stop::Memory
    }
}

impl From<Failed> for Stop {
    ghost use Rattle.script_shown.specs.declared.stop.Stop.TheVariants.{WriteFault};

    ghost from_gives = { λ _ e. e ≡ WriteFault };

    fn from(_: Failed) -> Stop {
        Stop::WriteFault
    }
}

/// There is no answer to show, at the place of the command.
pub fn no_answer(place: usize) -> Stop
    ensures { result ≡ Stop.Fault (record { what = What.NoAnswer; place = place }) }
{
    Stop::Fault(ScriptError {
        what: What::NoAnswer,
        place,
    })
}

/// A strategy that can't run, at the place of the command.
pub fn unknown_reducer(place: usize) -> Stop
    ensures { result ≡ Stop.Fault (record { what = What.UnknownReducer; place = place }) }
{
    Stop::Fault(ScriptError {
        what: What::UnknownReducer,
        place,
    })
}
