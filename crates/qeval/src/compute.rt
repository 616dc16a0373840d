//! What a term answers, from what its children answer.
ghost use Rattle.std.specs.Prelude.{◌≡◌, ◌<◌, map, length, MatchOption, pos, true, false};
ghost use Rattle.std.specs.List.{AllZip};
ghost use Rattle.qterm.specs.Store.{Has, tree_at, grow};
ghost use Rattle.qterm.specs.Kids.{kids, listed};
ghost use Rattle.qeval.specs.Value.{is_wide, int_of, bool_of};
ghost use Rattle.qeval.specs.Eval.{sum_of, all_of, any_of, prefix_wide, same_truth};
ghost use Rattle.qeval.specs.Node.{Answers, plain, value_at, int_at, bool_at, first_past, apply, is_past};

use crate::model::{Model, Value, copied};
use qterm::{Store, Term, TermId};

/// The value of a term, or its first subterm in postorder that passes 128 bits.
#[derive(Clone, Copy)]
pub(crate) enum Outcome {
    Known(Value),
    Past(TermId),
}

/// What a term answers, from what its children answer.
pub(crate) fn compute(store: &Store, id: TermId, model: &Model, outs: &[Outcome]) -> Outcome
    requires has { Has store.now id }
    requires children { AllZip (Answers model.now store.now) (listed (kids (tree_at store.now id))) outs.now }
    ensures { Answers model.now store.now (tree_at store.now id) result }
{
    if let Some(past) = first_past(outs) {
        return Outcome::Past(past);
    }
    match value_of_term(store, store.view(id), model, outs) {
        Some(value) => Outcome::Known(value),
        None => Outcome::Past(id),
    }
}

/// The first term that passes, of those that children name.
fn first_past(outs: &[Outcome]) -> Option<TermId>
    ensures { result ≡ first_past outs.now }
{
    for out in outs {
        if let Outcome::Past(id) = out {
            return Some(*id);
        }
    }
    None
}

/// The value of a term whose children have values, or nothing where it passes.
fn value_of_term(store: &Store, term: &Term, model: &Model, outs: &[Outcome]) -> Option<Value>
    ensures { MatchOption result (is_past model.now (grow store.now term.now) (map plain outs.now) ≡ true) (λ v. (is_past model.now (grow store.now term.now) (map plain outs.now) ≡ false) × (v ≡ apply model.now (grow store.now term.now) (map plain outs.now))) }
{
    match term {
        Term::True => Some(Value::Bool(true)),
        Term::False => Some(Value::Bool(false)),
        Term::Var(name) => Some(model.get(name)),
        Term::Num(number) => Some(Value::Int(*number)),
        Term::Sum(_) => match sum(outs) {
            Some(total) => Some(Value::Int(total)),
            None => None,
        },
        Term::Scale(by, _) => match by.checked_mul(number(value(outs, 0))) {
            Some(product) => Some(Value::Int(product)),
            None => None,
        },
        Term::Le(_, _) => Some(Value::Bool(number(value(outs, 0)) <= number(value(outs, 1)))),
        Term::Eq(_, _) => Some(Value::Bool(number(value(outs, 0)) == number(value(outs, 1)))),
        Term::Iff(_, _) => Some(Value::Bool(truth(value(outs, 0)) == truth(value(outs, 1)))),
        Term::Not(_) => Some(Value::Bool(!truth(value(outs, 0)))),
        Term::And(_) => Some(Value::Bool(all_true(outs))),
        Term::Or(_) => Some(Value::Bool(any_true(outs))),
        Term::Ite(_, _, _) => {
            if truth(value(outs, 0)) {
                Some(value(outs, 1))
            } else {
                Some(value(outs, 2))
            }
        }
    }
}

/// The numbers of the children added from left to right, or nothing where a prefix passes.
fn sum(outs: &[Outcome]) -> Option<i128>
    ensures { MatchOption result (prefix_wide (pos 0) (map plain outs.now) ≡ true) (λ s. (prefix_wide (pos 0) (map plain outs.now) ≡ false) × (s ≡ sum_of (pos 0) (map plain outs.now))) }
{
    let mut total = 0i128;
    for out in outs {
        match total.checked_add(number(plain(out))) {
            Some(more) => total = more,
            None => return None,
        }
    }
    Some(total)
}

/// Whether all children are true.
fn all_true(outs: &[Outcome]) -> bool
    ensures { result ≡ all_of (map plain outs.now) }
{
    for out in outs {
        if !truth(plain(out)) {
            return false;
        }
    }
    true
}

/// Whether any child is true.
fn any_true(outs: &[Outcome]) -> bool
    ensures { result ≡ any_of (map plain outs.now) }
{
    for out in outs {
        if truth(plain(out)) {
            return true;
        }
    }
    false
}

/// The value of the child at a place.
fn value(outs: &[Outcome], at: usize) -> Value
    ensures same { result ≡ value_at (map plain outs.now) at }
    ensures narrow { is_wide result ≡ false }
{
    if at < outs.len() {
        plain(&outs[at])
    } else {
        Value::Bool(false)
    }
}

/// The value of a child.
fn plain(out: &Outcome) -> Value
    ensures same { result ≡ plain out.now }
    ensures narrow { is_wide result ≡ false }
{
    match out {
        Outcome::Known(value) => copied(value),
        Outcome::Past(_) => Value::Bool(false),
    }
}

/// A value read as a number.
fn number(value: Value) -> i128
    ensures { result ≡ int_of value }
{
    match value {
        Value::Bool(_) => 0,
        Value::Int(number) => number,
    }
}

/// A value read as a truth value.
fn truth(value: Value) -> bool
    ensures { result ≡ bool_of value }
{
    match value {
        Value::Bool(truth) => truth,
        Value::Int(_) => false,
    }
}
