//! Bindings: the names that `let` gives to terms.
ghost use Rattle.std.specs.Prelude.{◌≡◌, ℕ, List, [], ◌∷◌, ◌++◌, None, Ok, OnOk, OnErr, IfOk, MatchResult};
ghost use Rattle.std.specs.Map.{lookup};
ghost use Rattle.std.specs.Str.{bytes_eq};
ghost use Rattle.sexp_read.specs.declared.sexp.Sexp.TheVariants as sexps;
ghost use Rattle.qterm.specs.Tree.{Tree};
ghost use Rattle.qterm.specs.Store.{Has, tree_at};
ghost use Rattle.strat_text.specs.Form.{form_of};
ghost use Rattle.smt_names.specs.Annotated as spec;
ghost use Rattle.smt_names.specs.Given.{IsIn, Goes, Refuses, seen};
ghost use Rattle.smt_names.specs.Table as table;
ghost use Rattle.smt_names.specs.Table.{AreThere};

use crate::meaning::Meaning;
use crate::state::State;
use crate::table::Table;
use qterm::TermId;
use sexp_read::Sexp;
use smt_words::{ReadError, What, refused};
use std::alloc::{AllocError, Global};

/// The name and the term of a binding, with the place of the list that they are.
pub struct Binding<'a> {
    pub name: &'a Sexp,
    pub value: &'a Sexp,
    pub place: usize,
}

/// The name and the term that a binding in the list at the place `at` is.
#[tactic(auto, unfolding(strat_text::specs::Form::form_of))]
pub fn pair(sexp: &Sexp, at: usize) -> Result<Binding<'_>, ReadError>
    ensures parts { (bytes : List ℕ) → MatchResult result (λ p. spec.pair_of (form_of bytes sexp.now) at ≡ Ok (form_of bytes p.name.now, form_of bytes p.value.now, p.place)) (λ e. Refuses e (spec.pair_of (form_of bytes sexp.now) at)) }
    ensures inside { IfOk result (λ p. (end : ℕ) × (sexp.now ≡ sexps.List (p.name.now ∷ p.value.now ∷ []) p.place end)) }
{
    match sexp {
        Sexp::Atom { .. } => Err(refused(What::BadShape, at)),
        Sexp::List { items, start, .. } => {
            let parts = items.as_slice();
            if parts.len() != 2 {
                return Err(refused(What::BadShape, *start));
            }
            Ok(Binding {
                name: &parts[0],
                value: &parts[1],
                place: *start,
            })
        }
    }
}

/// Binds a new name of a scope to a term, which counts from here on.
pub fn bind(
    alloc: Global,
    name: &[u8],
    id: TermId,
    scope: &mut Table,
    state: &mut State,
) -> Result<(), AllocError>
    requires new { lookup (bytes_eq name.now) scope.old ≡ None }
    ensures scope { OnOk result (scope.new ≡ scope.old ++ (name.now, Meaning.Defined id) ∷ []) }
    ensures state { OnOk result (state.new ≡ record state.old { bound = state.old.bound ++ id ∷ [] }) }
    ensures err { OnErr result (state.new ≡ state.old) }
    ensures read { (ts : List Tree) → OnOk result (spec.bind name.now (tree_at ts id) (seen ts state.old) ≡ Ok ((name.now, table.Defined (tree_at ts id)), seen ts state.new)) }
    ensures there { (ts : List Tree) → Has ts id → AreThere ts scope.old → AreThere ts scope.new }
    ensures goes { (ts : List Tree) → Has ts id → IsIn ts state.old → Goes ts state.old ts state.new }
{
    scope.add(alloc, name, Meaning::Defined(id))?;
    state.bound.push(id)?;
    Ok(())
}
