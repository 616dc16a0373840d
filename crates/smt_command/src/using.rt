//! Strategies and strings.
ghost use Rattle.std.specs.Prelude.{◌≡◌, List, IfOk};
ghost use Rattle.std.specs.Option.{option_copied};
ghost use Rattle.qterm.specs.Tree.{Tree};
ghost use Rattle.strat_text.specs.Form.{form_of, forms_of};
ghost use Rattle.smt_words.specs.Command.{command_tree};
ghost use Rattle.smt_command.specs.Given.{Tells};
ghost use Rattle.smt_command.specs.Reading as spec;

use crate::argument::{bad, only};
use sexp_read::Sexp;
use smt_names::string;
use smt_words::{Command, Echoed, ReadError, What, refused};
use std::alloc::{AllocError, Global};
use strat_text::{ReducerName, StratError, Strategy, read_strategy};

/// `(check-sat-using S)`, or `(apply S)` where it isn't to be checked.
pub(crate) fn read_using(
    alloc: Global,
    bytes: &[u8],
    args: &[Sexp],
    at: usize,
    checks: bool,
    reducers: Option<&[ReducerName]>,
) -> Result<Command, ReadError>
    ensures { (ts : List Tree) → Tells (command_tree ts) result (spec.read_using (option_copied reducers.entry) checks at (forms_of bytes.now args.now)) }
{
    match args {
        [] => Err(bad(at)),
        [form, rest @ ..] => match read_strategy(alloc, bytes, form, reducers) {
            Err(error) => Err(refusal(error)),
            Ok(strategy) => only(bytes, rest, at, using(checks, strategy)),
        },
    }
}

/// The command that runs a strategy.
fn using(checks: bool, strategy: Strategy) -> Command
    ensures { (ts : List Tree) → command_tree ts result ≡ spec.using checks strategy }
{
    if checks {
        Command::CheckSatUsing(strategy)
    } else {
        Command::Apply(strategy)
    }
}

/// The refusal of a strategy.
fn refusal(error: StratError) -> ReadError
    ensures { result ≡ spec.told_error error }
{
    match error {
        StratError::UnknownReducer(place) => refused(What::UnknownReducer, place),
        StratError::UnknownProbe(place) => refused(What::UnknownProbe, place),
        StratError::UnknownParam(place) => refused(What::UnknownParam, place),
        StratError::BadStrategy(place) => refused(What::BadStrategy, place),
        StratError::Memory(cause) => ReadError::Memory(cause),
    }
}

/// `(echo STRING)`
pub(crate) fn read_echo(
    alloc: Global,
    bytes: &[u8],
    args: &[Sexp],
    at: usize,
) -> Result<Command, ReadError>
    ensures { (ts : List Tree) → Tells (command_tree ts) result (spec.read_echo at (forms_of bytes.now args.now)) }
{
    match args {
        [] => Err(bad(at)),
        [text, rest @ ..] => match string(bytes, text) {
            None => Err(bad(at)),
            Some(text) => {
                let echoed = copied(alloc, text)?;
                only(bytes, rest, at, Command::Echo(echoed))
            }
        },
    }
}

/// The bytes of a string.
fn copied(alloc: Global, text: &[u8]) -> Result<Echoed, AllocError>
    ensures { IfOk result (λ echoed. echoed ≡ text.now) }
{
    let bytes = Vec::from_slice(alloc, text)?;
    Ok(Echoed { bytes })
}
