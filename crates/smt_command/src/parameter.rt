//! Parameters of functions, and what they make of a body.
ghost use Rattle.std.specs.Prelude.{◌≡◌, [], List, None, IfOk, OnOk};
ghost use Rattle.std.specs.Map.{lookup};
ghost use Rattle.std.specs.Str.{bytes_eq};
ghost use Rattle.qterm.specs.Tree.{Tree};
ghost use Rattle.qterm.specs.Store.{Extends, Has, tree_at};
ghost use Rattle.qterm.specs.Name.{IsNameText};
ghost use Rattle.strat_text.specs.Form.{form_of, forms_of};
ghost use Rattle.smt_names.specs.Table.{AreThere, IsThere, meaning_in, symbols_in};
ghost use Rattle.smt_command.specs.Given.{Tells};
ghost use Rattle.smt_command.specs.GivenParameters.{parameters_in, AreParametersIn};
ghost use Rattle.smt_command.specs.Parameters as spec;

use crate::argument::bad;
use crate::declaration::read_sort;
use crate::symbols::variable;
use qterm::{Name, Sort, Store, TermId};
use sexp_read::Sexp;
use smt_names::{Binding, Meaning, Params, Table, bound_name, pair};
use smt_words::ReadError;
use std::alloc::{AllocError, Global};

/// Parameters that are read.
#[derive(Drop)]
pub(crate) struct Parameters {
    /// What the script's names of them stand for, as a body sees them.
    pub scope: Table,
    /// The texts that they have in terms.
    pub texts: Table,
    /// Their names in terms.
    pub names: Params,
}

/// The parameters that an s-expression in the command at a place is. Their texts in terms are none of these symbols'.
#[tactic(auto, unfolding(strat_text::specs::Form::form_of))]
pub(crate) fn read_parameters(
    alloc: Global,
    bytes: &[u8],
    sexp: &Sexp,
    at: usize,
    symbols: &Table,
    store: &mut Store,
) -> Result<Parameters, ReadError>
    ensures read { (ts : List Tree) → Tells (parameters_in store.new) result (spec.read_parameters (symbols_in ts symbols.now) at (form_of bytes.now sexp.now)) }
    ensures there { IfOk result (AreParametersIn store.new) }
    ensures extends { Extends store.old store.new }
{
    match sexp {
        Sexp::Atom { .. } => Err(bad(at)),
        Sexp::List { items, start, .. } => {
            read_all(alloc, bytes, items.as_slice(), *start, symbols, store)
        }
    }
}

/// The parameters that the items of the list at a place are.
fn read_all(
    alloc: Global,
    bytes: &[u8],
    items: &[Sexp],
    place: usize,
    symbols: &Table,
    store: &mut Store,
) -> Result<Parameters, ReadError>
    ensures read { (ts : List Tree) → Tells (parameters_in store.new) result (spec.read_all (symbols_in ts symbols.now) place (forms_of bytes.now items.now) spec.no_parameter) }
    ensures there { IfOk result (AreParametersIn store.new) }
    ensures extends { Extends store.old store.new }
{
    let mut parameters = none(alloc);
    for at in 0..items.len() {
        read_one(
            alloc,
            bytes,
            &items[at],
            place,
            symbols,
            &mut parameters,
            store,
        )?;
    }
    Ok(parameters)
}

/// No parameter.
fn none(alloc: Global) -> Parameters
    ensures scope { result.scope ≡ [] }
    ensures texts { result.texts ≡ [] }
    ensures names { result.names ≡ [] }
{
    Parameters {
        scope: Table::new(alloc),
        texts: Table::new(alloc),
        names: Params::new(alloc),
    }
}

/// One more parameter, which an s-expression in the list at a place is.
fn read_one(
    alloc: Global,
    bytes: &[u8],
    sexp: &Sexp,
    place: usize,
    symbols: &Table,
    parameters: &mut Parameters,
    store: &mut Store,
) -> Result<(), ReadError>
    requires there { AreParametersIn store.old parameters.old }
    ensures read { (ts : List Tree) → Tells (λ _. parameters_in store.new parameters.new) result (spec.read_one (symbols_in ts symbols.now) place (parameters_in store.old parameters.old) (form_of bytes.now sexp.now)) }
    ensures there { OnOk result (AreParametersIn store.new parameters.new) }
    ensures extends { Extends store.old store.new }
{
    let Binding { name, value, place } = pair(sexp, place)?;
    let text = bound_name(bytes, &parameters.scope, place, name)?;
    let sort = read_sort(bytes, value, place)?;
    add(alloc, text, sort, symbols, parameters, store)?;
    Ok(())
}

/// One more parameter, which a body sees by this text.
fn add(
    alloc: Global,
    text: &[u8],
    sort: Sort,
    symbols: &Table,
    parameters: &mut Parameters,
    store: &mut Store,
) -> Result<(), AllocError>
    requires text { IsNameText text.now }
    requires new { lookup (bytes_eq text.now) parameters.old.scope ≡ None }
    requires there { AreParametersIn store.old parameters.old }
    ensures added { (ts : List Tree) → OnOk result (parameters_in store.new parameters.new ≡ spec.with_parameter (symbols_in ts symbols.now) text.now (parameters_in store.old parameters.old) sort) }
    ensures there { OnOk result (AreParametersIn store.new parameters.new) }
    ensures extends { Extends store.old store.new }
{
    let own = fresh(alloc, text, symbols, &parameters.texts)?;
    let name = Name::new(alloc, &own, sort)?;
    let id = variable(&name, store)?;
    parameters.scope.add(alloc, text, Meaning::Defined(id))?;
    parameters.texts.add(alloc, &own, Meaning::Defined(id))?;
    parameters.names.push(name)?;
    Ok(())
}

/// The text with as many `!` behind it as it takes that neither table has it.
fn fresh(alloc: Global, text: &[u8], symbols: &Table, texts: &Table) -> Result<Vec<u8>, AllocError>
    requires text { IsNameText text.now }
    ensures fresh { IfOk result (λ own. own.items ≡ spec.fresh symbols.now texts.now text.now) }
    ensures allowed { IfOk result (λ own. IsNameText own.items) }
    ensures new { IfOk result (λ own. lookup (bytes_eq own.items) texts.now ≡ None) }
    ensures none { IfOk result (λ own. lookup (bytes_eq own.items) symbols.now ≡ None) }
{
    let mut own = Vec::from_slice(alloc, text)?;
    while is_used(symbols, texts, &own) {
        own.push(b'!')?;
    }
    Ok(own)
}

/// Whether one of the tables has a text.
fn is_used(symbols: &Table, texts: &Table, text: &[u8]) -> bool
    ensures { result ≡ spec.is_used symbols.now texts.now text.now }
{
    symbols.has(text) || texts.has(text)
}

/// What a body with these parameters means: a term, where there are none.
pub(crate) fn meaning_over(names: Params, body: TermId) -> Meaning
    ensures over { (ts : List Tree) → meaning_in ts result ≡ spec.meaning_over names (tree_at ts body) }
    ensures there { (ts : List Tree) → Has ts body → IsThere ts result }
{
    if is_function(&names) {
        Meaning::Function(names, body)
    } else {
        Meaning::Defined(body)
    }
}

/// Whether there is a parameter.
pub(crate) fn is_function(names: &Params) -> bool
    ensures { result ≡ spec.is_function names.now }
{
    !names.as_slice().is_empty()
}
