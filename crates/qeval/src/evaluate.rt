//! The value of a term.
ghost use Rattle.std.specs.Prelude.{◌≡◌, IfOk, IfErr, OnOk};
ghost use Rattle.qterm.specs.Store.{Has, tree_at};
ghost use Rattle.qeval.specs.Eval.{val, wide, NamesWide};
ghost use Rattle.qeval.specs.Node.{Answers, answer_of};

use crate::compute::{Outcome, compute};
use crate::error::EvalError;
use crate::model::{Model, Value};
use qterm::{Store, TermId};
use qwalk::{Scan, scan_terms};
use std::alloc::{AllocError, Global};

/// The value of a term under a model, at a cost in proportion to its distinct subterms and their children.
///
/// All children are taken, also those of a branch of an `Ite` that isn't chosen. Where the value of a subterm, or a prefix of
/// a sum, is outside 128 bits, `Wide` has the first such subterm in postorder.
pub fn eval(alloc: Global, store: &Store, id: TermId, model: &Model) -> Result<Value, EvalError>
    requires has { Has store.now id }
    ensures value { IfOk result (λ v. v ≡ val model.now (tree_at store.now id)) }
    ensures narrow { OnOk result (wide model.now (tree_at store.now id) ≡ None) }
    ensures wide { IfErr result (NamesWide model.now store.now (tree_at store.now id)) }
{
    let mut evaluation = Evaluation { model };
    match scan_terms(alloc, store, &mut evaluation, id) {
        Ok(found) => answer(&found),
        Err(error) => Err(EvalError::Memory(error)),
    }
}

/// A value, or the term that passes as an error.
fn answer(found: &Outcome) -> Result<Value, EvalError>
    ensures { result ≡ answer_of found.now }
{
    match found {
        Outcome::Known(value) => Ok(*value),
        Outcome::Past(term) => Err(EvalError::Wide { term: *term }),
    }
}

/// An evaluation under a model.
#[derive(Drop)]
struct Evaluation<'a> {
    model: &'a Model,
}

impl Scan<Outcome> for Evaluation<'_> {
    type Task = Model;

    ghost task = { λ e. e.model.now };

    ghost right = { λ e ts t o. Answers e.model.now ts t o };

    fn node(&mut self, store: &Store, id: TermId, outs: &[Outcome]) -> Result<Outcome, AllocError> {
        Ok(compute(store, id, self.model, outs))
    }
}
