//! What is wrong with a script.
ghost use Rattle.std.specs.Prelude.{◌≡◌};
ghost use Rattle.smt_words.specs.declared.error.ReadError.TheVariants.{Memory};

use std::alloc::AllocError;

/// What is wrong with a script.
#[derive(Clone, Copy, Debug, PartialEq, Eq)]
pub enum What {
    /// A bad token.
    Lexical,
    /// A list without its end.
    Unclosed,
    /// Lists or terms that nest past 1,000.
    TooDeep,
    /// A command that there isn't.
    UnknownCommand,
    /// A list with another number or kind of arguments than its head takes.
    BadShape,
    /// A symbol that stands for nothing here.
    UnknownSymbol,
    /// A name that is in force.
    Redeclared,
    /// A term of another sort.
    BadSort,
    /// A product of two terms that are no numbers.
    NotLinear,
    /// A number past 128 bits.
    WideNumeral,
    /// More subterms than the assertions in force may have.
    TooManyTerms,
    /// A logic other than those that are built.
    BadLogic,
    /// More levels than there may be.
    PushTooMany,
    /// More levels to close than are open.
    PopTooMany,
    /// A name of no reducer.
    UnknownReducer,
    /// A name of no probe.
    UnknownProbe,
    /// A keyword that is no parameter.
    UnknownParam,
    /// A strategy of another form.
    BadStrategy,
    /// Nothing to show.
    NoAnswer,
    /// A value past 128 bits.
    WideValue,
    /// More bytes than a script may have.
    TooLong,
}

/// A fault of a script, with the place in its bytes, counted from 0.
#[derive(Clone, Copy, Debug, PartialEq, Eq)]
pub struct ScriptError {
    pub what: What,
    pub place: usize,
}

/// Why nothing is read: a fault of the script, or want of memory.
#[derive(Clone, Copy, Debug, PartialEq, Eq)]
pub enum ReadError {
    Refused(ScriptError),
    Memory(AllocError),
}

impl From<AllocError> for ReadError {
    ghost from_gives = { λ cause e. e ≡ Memory cause };

    fn from(cause: AllocError) -> ReadError {
        ReadError::Memory(cause)
    }
}

/// The refusal at a place.
pub fn refused(what: What, place: usize) -> ReadError
    ensures { result ≡ ReadError.Refused (record { what = what; place = place }) }
{
    ReadError::Refused(ScriptError { what, place })
}
