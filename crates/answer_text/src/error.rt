//! The lines of errors in scripts.
ghost use Rattle.std.specs.Prelude.{◌≡◌, IfOk};
ghost use Rattle.sexp_read.specs.Place.{line_at, column_at};
ghost use Rattle.answer_text.specs.Errors as spec;

use crate::number::push_count;
use crate::term::put;
use sexp_read::line_column;
use smt_words::What;
use std::alloc::{AllocError, Global};

/// The line of an error at a place of the script, with its line and column, both counted from 1. A place past the bytes is told as
/// their end.
#[tactic(auto, unfolding(crate::specs::Errors::error_line))]
pub fn write_error(
    alloc: Global,
    bytes: &[u8],
    what: What,
    place: usize,
) -> Result<Vec<u8>, AllocError>
    ensures { IfOk result (λ text. text.items ≡ spec.error_line bytes.now what place) }
{
    let (line, column) = line_column_of(bytes, place);
    let mut text = Vec::new(alloc);
    put(&mut text, b"(error \"line ")?;
    push_count(&mut text, line as u64)?;
    put(&mut text, b" column ")?;
    push_count(&mut text, column as u64)?;
    put(&mut text, b": ")?;
    put(&mut text, fault_text(what))?;
    put(&mut text, b"\")\n")?;
    Ok(text)
}

/// The line and the column of a place, which may be past the bytes.
fn line_column_of(bytes: &[u8], place: usize) -> (usize, usize)
    ensures line { result.0 ≡ line_at bytes.now place }
    ensures column { result.1 ≡ column_at bytes.now place }
{
    if place <= bytes.len() {
        line_column(bytes, place)
    } else {
        line_column(bytes, bytes.len())
    }
}

/// What the line of a fault tells.
fn fault_text(what: What) -> &'static [u8]
    ensures { result.now ≡ spec.fault_text what }
{
    match what {
        What::Lexical => b"bad token",
        What::Unclosed => b"unclosed parenthesis",
        What::TooDeep => b"nesting past 1000",
        What::UnknownCommand => b"unknown command",
        What::BadShape => b"wrong arguments",
        What::UnknownSymbol => b"unknown symbol",
        What::Redeclared => b"name already declared",
        What::BadSort => b"wrong sort",
        What::NotLinear => b"product is not linear",
        What::WideNumeral => b"number past 128 bits",
        What::TooManyTerms => b"more than 1048576 terms",
        What::BadLogic => b"logic not supported",
        What::PushTooMany => b"push past 65536 levels",
        What::PopTooMany => b"pop below the first level",
        What::UnknownReducer => b"unknown reducer",
        What::UnknownProbe => b"unknown probe",
        What::UnknownParam => b"unknown parameter",
        What::BadStrategy => b"bad strategy",
        What::NoAnswer => b"no answer to show",
        What::WideValue => b"value past 128 bits",
        What::TooLong => b"script too long",
    }
}
