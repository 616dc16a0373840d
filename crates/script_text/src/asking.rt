//! The values of terms that a script asks for.
ghost use Rattle.std.specs.Prelude.{◌≡◌, map, All, Some, None, IfOk, IfErr, OnOk};
ghost use Rattle.qterm.specs.Store.{Has, tree_at};
ghost use Rattle.qeval.specs.Eval.{wide};
ghost use Rattle.smt_words.specs.Command.{asked_tree};
ghost use Rattle.answer_text.specs.Values.{IsWithin};
ghost use Rattle.script_text.specs.Asked as spot;
ghost use Rattle.script_text.specs.Shown as spec;

use answer_text::{ValueRow, write_values};
use qeval::{EvalError, Model, eval};
use qterm::Store;
use smt_words::Asked;
use std::alloc::{AllocError, AllocFailed, Global};

/// Why the values of terms can't be written.
#[derive(Clone, Copy, Debug, PartialEq, Eq)]
pub enum AskError {
    /// The value of the term at this place passes 128 bits.
    Wide(usize),
    /// There is no memory.
    Memory,
}

impl From<AllocError> for AskError {
    ghost use Rattle.script_text.specs.declared.asking.AskError.TheVariants.{Memory};

    ghost from_gives = { λ _ e. e ≡ Memory };

    fn from(_: AllocError) -> AskError {
        AskError::Memory
    }
}

impl<T: Drop> From<AllocFailed<T>> for AskError {
    ghost use Rattle.script_text.specs.declared.asking.AskError.TheVariants.{Memory};

    ghost from_gives = { λ _ e. e ≡ Memory };

    fn from(_: AllocFailed<T>) -> AskError {
        AskError::Memory
    }
}

/// The line of the values of terms under a model, or the place of the first term whose value passes 128 bits.
pub fn write_asked(
    alloc: Global,
    store: &Store,
    bytes: &[u8],
    model: &Model,
    asked: &[Asked],
) -> Result<Vec<u8>, AskError>
    requires has { All (λ a. Has store.now a.term) asked.now }
    requires within { All (spot.IsAskedIn bytes.now) asked.now }
    ensures text { IfOk result (λ text. spec.values_or bytes.now model.now (map (asked_tree store.now) asked.now) (spec.first_wide model.now (map (asked_tree store.now) asked.now)) ≡ spec.Text text.items) }
    ensures wide { IfErr result (spot.NamesWide model.now (map (asked_tree store.now) asked.now)) }
{
    let rows = rows_of(alloc, store, model, asked)?;
    let text = write_values(alloc, bytes, rows.as_slice())?;
    Ok(text)
}

/// The asked terms with their values.
fn rows_of(
    alloc: Global,
    store: &Store,
    model: &Model,
    asked: &[Asked],
) -> Result<Vec<ValueRow>, AskError>
    requires { All (λ a. Has store.now a.term) asked.now }
    ensures rows { IfOk result (λ rows. rows.items ≡ map (λ a. spec.value_row model.now (asked_tree store.now a)) asked.now) }
    ensures narrow { OnOk result (spec.first_wide model.now (map (asked_tree store.now) asked.now) ≡ None) }
    ensures wide { IfErr result (spot.NamesWide model.now (map (asked_tree store.now) asked.now)) }
{
    let mut rows = Vec::new(alloc);
    for term in asked {
        rows.push(row_of(alloc, store, model, term)?)?;
    }
    Ok(rows)
}

/// An asked term with its value.
fn row_of(alloc: Global, store: &Store, model: &Model, asked: &Asked) -> Result<ValueRow, AskError>
    requires { Has store.now asked.now.term }
    ensures row { IfOk result (λ row. row ≡ spec.value_row model.now (asked_tree store.now asked.now)) }
    ensures narrow { OnOk result (wide model.now (tree_at store.now asked.now.term) ≡ None) }
    ensures wide { IfErr result (spot.IsWideAt model.now (asked_tree store.now asked.now)) }
{
    let Asked { term, start, end } = *asked;
    match eval(alloc, store, term, model) {
        Ok(value) => Ok(ValueRow { start, end, value }),
        Err(EvalError::Wide { .. }) => Err(AskError::Wide(start)),
        Err(EvalError::Memory(_)) => Err(AskError::Memory),
    }
}
