//! The steps that set names to truth values.
ghost use Rattle.std.specs.Prelude.{◌≡◌, ◌<◌, ℕ, Bool as Truth, List, IfOk, length};
ghost use Rattle.qterm.specs.declared.name.Name.{Name};
ghost use Rattle.qterm.specs.Tree.{Var};
ghost use Rattle.qeval.specs.declared.model.Value.TheVariants.{Bool};
ghost use Rattle.model_conv.specs.declared.step.LiftStep.TheVariants.{Set};
ghost use Rattle.model_conv.specs.Step.{AreLawful};
ghost use Rattle.reducer_iface.specs.SatRow.{sets};
ghost use Rattle.sat_clauses.specs.Coding.{name_at};
ghost use Rattle.sat_lines.specs.Terms.{StandFor};
ghost use Rattle.sat_rows.specs.Names.{AreNames};

use model_conv::LiftStep;
use qeval::Value;
use qterm::{Store, Term};
use sat_clauses::Numbers;
use sqlite_items::Items;
use std::alloc::{AllocError, Global};

/// The steps that set the names of the numbers to these values.
pub(crate) fn set_steps(
    alloc: Global,
    store: &Store,
    numbers: &Numbers,
    values: &[bool],
) -> Result<Items<LiftStep>, AllocError>
    requires stand { StandFor store.now numbers.now (name_at store.now numbers.now) }
    requires each { length values.now ≡ length numbers.now }
    ensures steps { IfOk result (λ steps. (ns : List Name) → AreNames ns (name_at store.now numbers.now) → length ns ≡ length numbers.now → steps ≡ sets ns values.now) }
    ensures lawful { IfOk result AreLawful }
{
    let _count = numbers.count();
    let mut steps = Items::new(alloc);
    let mut number = 0u32;
    for value in values {
        let step = set_step(store, numbers, number, *value)?;
        steps.push(step)?;
        number += 1;
    }
    Ok(steps)
}

/// The step that sets the name of a number to a value.
fn set_step(
    store: &Store,
    numbers: &Numbers,
    number: u32,
    value: bool,
) -> Result<LiftStep, AllocError>
    requires stand { StandFor store.now numbers.now (name_at store.now numbers.now) }
    requires within { number < length numbers.now }
    ensures { IfOk result (λ step. step ≡ Set (name_at store.now numbers.now number) (Bool value)) }
{
    match store.view(numbers.id(number)) {
        Term::Var(name) => Ok(LiftStep::Set {
            name: name.clone()?,
            value: Value::Bool(value),
        }),
        _ => Err(AllocError),
    }
}
