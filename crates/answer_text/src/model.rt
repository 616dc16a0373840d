//! Models as text.
ghost use Rattle.std.specs.Prelude.{◌≡◌, ◌++◌, IfOk, OnOk};
ghost use Rattle.answer_text.specs.Models as spec;

use crate::number::push_number;
use crate::term::put;
use qeval::{Model, Value};
use qterm::{Name, Sort};
use std::alloc::{AllocError, Global};
use symbol_text::push_symbol;

/// The text of a model: a definition for each of these names, in order, with its value.
#[tactic(auto, unfolding(crate::specs::Models::model_text))]
pub fn write_model(alloc: Global, names: &[Name], model: &Model) -> Result<Vec<u8>, AllocError>
    ensures { IfOk result (λ text. text.items ≡ spec.model_text model.now names.now) }
{
    let mut text = Vec::new(alloc);
    put(&mut text, b"(\n")?;
    push_definitions(&mut text, names, model)?;
    put(&mut text, b")\n")?;
    Ok(text)
}

/// Adds the line of each name.
fn push_definitions(text: &mut Vec<u8>, names: &[Name], model: &Model) -> Result<(), AllocError>
    ensures { OnOk result (text.new.items ≡ text.old.items ++ spec.definitions model.now names.now) }
{
    for name in names {
        push_definition(text, name, model)?;
    }
    Ok(())
}

/// Adds the line of a name.
#[tactic(auto, unfolding(crate::specs::Models::definition))]
fn push_definition(text: &mut Vec<u8>, name: &Name, model: &Model) -> Result<(), AllocError>
    ensures { OnOk result (text.new.items ≡ text.old.items ++ spec.definition model.now name.now) }
{
    put(text, b"  (define-fun ")?;
    push_symbol(text, name.text())?;
    put(text, b" () ")?;
    put(text, sort_text(name.sort()))?;
    put(text, b" ")?;
    push_value(text, model.get(name))?;
    put(text, b")\n")?;
    Ok(())
}

/// Adds the text of a value.
#[tactic(auto, unfolding(crate::specs::Models::value_text))]
pub(crate) fn push_value(text: &mut Vec<u8>, value: Value) -> Result<(), AllocError>
    ensures { OnOk result (text.new.items ≡ text.old.items ++ spec.value_text value) }
{
    match value {
        Value::Bool(truth) => put(text, truth_text(truth)),
        Value::Int(number) => push_number(text, number),
    }
}

/// The text of a truth value.
fn truth_text(truth: bool) -> &'static [u8]
    ensures { result.now ≡ spec.truth_text truth }
{
    if truth { b"true" } else { b"false" }
}

/// The text of a sort.
fn sort_text(sort: Sort) -> &'static [u8]
    ensures { result.now ≡ spec.sort_text sort }
{
    match sort {
        Sort::Bool => b"Bool",
        Sort::Int => b"Int",
    }
}
