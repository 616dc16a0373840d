//! What stands behind the arguments of a command.
ghost use Rattle.std.specs.Prelude.{◌≡◌, List};
ghost use Rattle.qterm.specs.Tree.{Tree};
ghost use Rattle.strat_text.specs.Form.{forms_of};
ghost use Rattle.smt_words.specs.declared.error.What.TheVariants.{BadShape};
ghost use Rattle.smt_names.specs.Reading.{refusal};
ghost use Rattle.smt_words.specs.Command.{command_tree};
ghost use Rattle.smt_command.specs.Given.{Tells};
ghost use Rattle.smt_command.specs.Reading as spec;

use sexp_read::Sexp;
use smt_words::{Command, ReadError, What, refused};

/// The wrong arguments of the command at a place.
pub(crate) fn bad(at: usize) -> ReadError
    ensures { result ≡ ReadError.Refused (refusal BadShape at) }
{
    refused(What::BadShape, at)
}

/// The command, where nothing more stands here.
#[tactic(auto, using(crate::proofs::Ends::only_more))]
pub(crate) fn only(
    bytes: &[u8],
    rest: &[Sexp],
    at: usize,
    command: Command,
) -> Result<Command, ReadError>
    ensures { (ts : List Tree) → Tells (command_tree ts) result (spec.only at (forms_of bytes.now rest.now) (command_tree ts command)) }
{
    match rest {
        [] => Ok(command),
        [_, ..] => Err(bad(at)),
    }
}

/// Nothing more stands here.
#[tactic(auto, using(crate::proofs::Ends::nothing_more_more))]
pub(crate) fn nothing(bytes: &[u8], rest: &[Sexp], at: usize) -> Result<(), ReadError>
    ensures { Tells (λ done. done) result (spec.nothing_more at (forms_of bytes.now rest.now)) }
{
    match rest {
        [] => Ok(()),
        [_, ..] => Err(bad(at)),
    }
}
