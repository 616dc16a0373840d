//! The texts of commands.
ghost use Rattle.std.specs.Prelude.{◌≡◌, IfOk};
ghost use Rattle.script_text.specs.Shown as spec;

use answer_text::{SUCCESS, UNSUPPORTED, write_error};
use smt_words::ScriptError;
use std::alloc::{AllocError, Global};

/// What a command without other output writes, where success is told or not.
pub fn success_text(on: bool) -> &'static [u8]
    ensures { result.now ≡ spec.success_text on }
{
    if on { SUCCESS } else { &[] }
}

/// What the command of an option writes, which may be one that there isn't, where success is told or not.
pub fn option_text(known: bool, on: bool) -> &'static [u8]
    ensures { result.now ≡ spec.option_text known on }
{
    if known { success_text(on) } else { UNSUPPORTED }
}

/// The line of an `echo` of a string with its quotes.
pub fn write_echo(alloc: Global, text: &[u8]) -> Result<Vec<u8>, AllocError>
    ensures { IfOk result (λ line. line.items ≡ spec.echo_text text.now) }
{
    let mut line = Vec::new(alloc);
    line.extend_from_slice(text)?;
    line.push(b'\n')?;
    Ok(line)
}

/// The line of a fault of a script, if there is one.
#[tactic(auto, unfolding(crate::specs::Shown::fault_line))]
pub fn write_fault(
    alloc: Global,
    bytes: &[u8],
    fault: Option<ScriptError>,
) -> Result<Vec<u8>, AllocError>
    ensures { IfOk result (λ line. line.items ≡ spec.fault_line bytes.now fault) }
{
    match fault {
        None => Ok(Vec::new(alloc)),
        Some(ScriptError { what, place }) => write_error(alloc, bytes, what, place),
    }
}
