//! Values, and models: what each name has as its value.
ghost use Rattle.std.specs.Prelude.{◌≡◌, ◌<◌, ◌↔◌, [], length, slice_get, Some, IsTrue, OnOk, OnErr, false, if◌then◌else◌};
ghost use Rattle.qeval.specs.Value.{value_of, zero_of, with_value, without, names, values, is_wide, same_name, HasSort};
ghost use Rattle.qterm.specs.declared.name.Name.{Name};

use indexmap::IndexMap;
use qterm::{Name, Sort};
use std::alloc::{AllocError, Global};
use std::marker;

/// The value of a term.
#[derive(Clone, Copy, Debug, PartialEq, Eq)]
pub enum Value {
    /// The value of a formula.
    Bool(bool),
    /// The value of an Int term.
    Int(i128),
}

/// Values of names, in the order in which the names came: a name that has none is 0 or false.
/// Contracts see the list of the names with their values.
#[derive(Debug, Drop)]
pub struct Model {
    values: IndexMap<Name, Value>,
}

impl marker::Model for Model {
    ghost use Rattle.std.specs.Prelude.{List};
    ghost use Rattle.qterm.specs.declared.name.Name.{Name};
    ghost use Rattle.qeval.specs.declared.model.Value.{Value as Datum};
    ghost use Rattle.qeval.specs.Value.{IsSorted};

    ghost Value = { List (Name × Datum) };

    ghost view = { λ m. m.values.entries };

    ghost invariant = { λ m. IsSorted m.values.entries };
}

impl Model {
    /// The model in which no name has a value, which takes no memory.
    pub fn new(alloc: Global) -> Model
        ensures { result ≡ [] }
    {
        Model {
            values: IndexMap::new(alloc),
        }
    }

    /// The value of a name: 0 or false where it has none.
    pub fn get(&self, name: &Name) -> Value
        ensures value { result ≡ value_of self.now name.now }
        ensures sort { HasSort name.now.sort result }
        ensures narrow { is_wide result ≡ false }
    {
        match self.values.get(name) {
            Some(value) => copied(value),
            None => zero_of(name.sort()),
        }
    }

    /// Gives a name its value. A name that has one keeps its place in the order, and a new one goes last.
    pub fn set(&mut self, name: Name, value: Value) -> Result<(), AllocError>
        requires sort { HasSort name.sort value }
        ensures order { OnOk result (self.new ≡ with_value self.old name value) }
        ensures value { OnOk result ((other : Name) → value_of self.new other ≡ (if same_name name other then value else value_of self.old other)) }
        ensures err { OnErr result (self.new ≡ self.old) }
    {
        self.values.insert(name, value)?;
        Ok(())
    }

    /// Takes a name out, so that it is 0 or false. The others stay, in their order.
    pub fn forget(&mut self, name: &Name)
        ensures order { self.new ≡ without self.old name.now }
        ensures value { (other : Name) → value_of self.new other ≡ (if same_name name.now other then zero_of other.sort else value_of self.old other) }
    {
        self.values.shift_remove(name);
    }

    /// How many names have a value.
    pub fn len(&self) -> usize
        ensures { result ≡ length self.now }
    {
        self.values.len()
    }

    /// Whether no name has a value.
    pub fn is_empty(&self) -> bool
        ensures { IsTrue result ↔ (self.now ≡ []) }
    {
        self.values.is_empty()
    }

    /// The name at a place in the order, counted from 0.
    pub fn name_at(&self, at: usize) -> &Name
        requires within { at < length self.now }
        ensures { slice_get (names self.now) at ≡ Some result.now }
    {
        self.values.get_index(at).unwrap().0
    }

    /// The value of the name at a place in the order, counted from 0.
    pub fn value_at(&self, at: usize) -> Value
        requires within { at < length self.now }
        ensures { slice_get (values self.now) at ≡ Some result }
    {
        copied(self.values.get_index(at).unwrap().1)
    }
}

/// The value behind a reference, whose number is one of 128 bits.
pub(crate) fn copied(value: &Value) -> Value
    ensures same { result ≡ value.now }
    ensures narrow { is_wide result ≡ false }
{
    match *value {
        Value::Bool(truth) => Value::Bool(truth),
        Value::Int(number) => Value::Int(number),
    }
}

/// What a name of this sort is that has no value.
fn zero_of(sort: Sort) -> Value
    ensures same { result ≡ zero_of sort }
    ensures sort { HasSort sort result }
    ensures narrow { is_wide result ≡ false }
{
    match sort {
        Sort::Bool => Value::Bool(false),
        Sort::Int => Value::Int(0),
    }
}
