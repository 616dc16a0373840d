//! The certificate where all goals are unsat.
ghost use Rattle.std.specs.Prelude.{◌≡◌, All, IfOk, length, true};
ghost use Rattle.std.specs.List.{list_any};
ghost use Rattle.qterm.specs.declared.name.Sort.TheVariants.{Bool};
ghost use Rattle.qterm.specs.Store.{Has, HasSort, tree_at, trees_of};
ghost use Rattle.qgoal.specs.Goal.{HasGoal};
ghost use Rattle.qgoal.specs.Decided.{is_false};
ghost use Rattle.cert_items.specs.Truth.{Unsatisfiable};
ghost use Rattle.tac_cert.specs.Accepts.{Accepts, Closes, CertFits, as_items, most_splits};
ghost use Rattle.proof_conv.specs.Accepted.{AcceptEach, nesting};
ghost use Rattle.proof_conv.specs.Flat.{AreFlat};
ghost use Rattle.deriv.specs.Outcome.{goal_trees, verdict, AllUnsat};
ghost use Rattle.check_answer.specs.Answers.{IsRefuted, IfUnsat};
ghost use Rattle.check_answer.specs.Reached.{formulas_of, AreUnsat, IsConverter, IsFalseAt};

use crate::answers::Answer;
use cert_check::accepted_is_unsatisfiable;
use model_conv::Discarded;
use proof_conv::{ProofConv, by_false};
use qgoal::Goal;
use qterm::{Store, Term, TermId};
use std::alloc::{AllocError, Global};
use tac_cert::{Cert, renumber};

/// The certificate against the assertions, from those that close the goals, all of which are unsat.
pub(crate) fn refuted(
    alloc: Global,
    store: &Store,
    number: u32,
    asserts: &[TermId],
    goals: &[Goal],
    _above: &[u32],
    proofs: ProofConv,
) -> Result<Answer, AllocError>
    requires asserts { All (HasSort Bool store.now) asserts.now }
    requires has { All (HasGoal store.now) goals.now }
    requires unsat { verdict (goal_trees store.now goals.now) ≡ AllUnsat }
    requires proofs { IsConverter store.now (trees_of store.now asserts.now) goals.now _above.now proofs }
    ensures refuted { IfOk result (IsRefuted store.now number (trees_of store.now asserts.now)) }
    ensures unsat { IfOk result (IfUnsat (λ _. Unsatisfiable (trees_of store.now asserts.now))) }
    ensures terms { IfOk result (IfUnsat (CertFits store.now)) }
{
    match certs_of(alloc, store, goals) {
        Ok(certs) => {
            let cert = proofs.close(alloc, certs)?;
            let cert = renumber(cert, number, count_of(asserts.len())?);
            accepted_is_unsatisfiable(store, asserts, &cert);
            Ok(Answer::Unsat(cert))
        }
        Err(refused) => {
            proofs.discard(Discarded::Memory);
            Err(refused)
        }
    }
}

/// For each goal the certificate that closes it by its formula `false`.
fn certs_of(alloc: Global, store: &Store, goals: &[Goal]) -> Result<Vec<Cert>, AllocError>
    requires has { All (HasGoal store.now) goals.now }
    requires unsat { AreUnsat store.now goals.now }
    ensures accepted { IfOk result (λ certs. AcceptEach store.now certs.items (formulas_of store.now goals.now)) }
    ensures each { IfOk result (λ certs. length certs.items ≡ length goals.now) }
    ensures terms { IfOk result (λ certs. All (CertFits store.now) certs.items) }
    ensures flat { IfOk result (λ certs. AreFlat certs.items) }
{
    let mut certs = Vec::new(alloc);
    for goal in goals {
        certs.push(cert_of(alloc, store, goal)?)?;
    }
    Ok(certs)
}

/// The certificate that closes the goal by its formula `false`.
fn cert_of(alloc: Global, store: &Store, goal: &Goal) -> Result<Cert, AllocError>
    requires has { HasGoal store.now goal.now }
    requires unsat { list_any is_false (trees_of store.now goal.now.formulas) ≡ true }
    ensures accepted { IfOk result (λ cert. Accepts store.now cert (trees_of store.now goal.now.formulas)) }
    ensures terms { IfOk result (λ cert. CertFits store.now cert) }
    ensures flat { IfOk result (λ cert. nesting cert.root ≡ 0) }
{
    let formulas = goal.formulas.as_slice();
    let count = count_of(formulas.len())?;
    match false_place(store, formulas) {
        Some(place) => Ok(by_false(alloc, place as u32 + 1, count)),
        None => unreachable!(),
    }
}

/// The number, where it has 32 bits.
fn count_of(len: usize) -> Result<u32, AllocError>
    ensures { IfOk result (λ count. count ≡ len) }
{
    match u32::try_from(len) {
        Ok(count) => Ok(count),
        Err(_) => Err(AllocError),
    }
}

/// The place of the first formula that is `false`, counted from 0.
fn false_place(store: &Store, formulas: &[TermId]) -> Option<usize>
    requires has { All (Has store.now) formulas.now }
    ensures { IsFalseAt store.now formulas.now result }
{
    for (place, formula) in formulas.iter().enumerate() {
        if is_false(store, *formula) {
            return Some(place);
        }
    }
    None
}

/// Whether a formula is `false`.
fn is_false(store: &Store, formula: TermId) -> bool
    requires has { Has store.now formula }
    ensures { result ≡ is_false (tree_at store.now formula) }
{
    matches!(store.view(formula), Term::False)
}
