//! Goals are decided.
ghost use Rattle.std.specs.Prelude.{◌≡◌, ◌<◌, [], All, IfOk, length, slice_index_or};
ghost use Rattle.std.specs.List.{list_all};
ghost use Rattle.qterm.specs.declared.name.Sort.TheVariants.{Bool};
ghost use Rattle.qterm.specs.Store.{HasSort, trees_of};
ghost use Rattle.qgoal.specs.Goal.{HasGoal, goal_tree};
ghost use Rattle.qgoal.specs.Decided.{decided};
ghost use Rattle.cert_items.specs.Truth.{Unsatisfiable};
ghost use Rattle.tac_cert.specs.Accepts.{CertFits};
ghost use Rattle.deriv.specs.Outcome.{goal_trees, first_sat, is_sat, is_unsat, verdict};
ghost use Rattle.check_answer.specs.Answers.{Decides, IsLifted, IfUnsat};
ghost use Rattle.check_answer.specs.Reached.{IsReached};

use crate::answers::{Answer, Why};
use crate::refuting::refuted;
use model_conv::{Discarded, LiftError, ModelConv};
use proof_conv::ProofConv;
use qeval::Model;
use qgoal::{Decided, Goal};
use qterm::{Store, TermId};
use sqlite_items::Items;
use std::alloc::{AllocError, Global};

/// Goals that a strategy came to, with the splits above each and both converters, which have to be spent.
pub struct Reached {
    /// The goals.
    pub goals: Items<Goal>,
    /// How many splits stand above each of them.
    pub above: Items<u32>,
    /// It carries models of the goals back.
    pub models: ModelConv,
    /// It makes a certificate of those of the goals.
    pub proofs: ProofConv,
}

/// What the check of that number of the assertions answers where its strategy came to these goals.
///
/// The model is that of the first goal that is sat, carried back. The certificate closes each goal, all of which are unsat, by its formula
/// `false`. More than 2^32 - 1 assertions, or formulas of a goal, count as want of memory where a certificate is made.
pub fn decide(
    alloc: Global,
    store: &Store,
    number: u32,
    asserts: &[TermId],
    reached: Reached,
) -> Result<Answer, AllocError>
    requires asserts { All (HasSort Bool store.now) asserts.now }
    requires reached { IsReached store.now (trees_of store.now asserts.now) reached }
    ensures decides { IfOk result (Decides store.now number (trees_of store.now asserts.now) (goal_trees store.now reached.goals) reached.models (verdict (goal_trees store.now reached.goals))) }
    ensures unsat { IfOk result (IfUnsat (λ _. Unsatisfiable (trees_of store.now asserts.now))) }
    ensures terms { IfOk result (IfUnsat (CertFits store.now)) }
{
    let Reached {
        goals,
        above,
        models,
        proofs,
    } = reached;
    match first_sat(store, goals.as_slice()) {
        Some(place) => {
            proofs.discard(Discarded::Refuted);
            lifted(alloc, models, place)
        }
        None => {
            if are_unsat(store, goals.as_slice()) {
                models.discard(Discarded::Refuted);
                refuted(
                    alloc,
                    store,
                    number,
                    asserts,
                    goals.as_slice(),
                    above.as_slice(),
                    proofs,
                )
            } else {
                models.discard(Discarded::Undecided);
                proofs.discard(Discarded::Undecided);
                Ok(Answer::Unknown(Why::Undecided(goals)))
            }
        }
    }
}

/// The place of the first goal that is sat, counted from 0.
fn first_sat(store: &Store, goals: &[Goal]) -> Option<usize>
    requires has { All (HasGoal store.now) goals.now }
    ensures { result ≡ first_sat (goal_trees store.now goals.now) }
{
    for (place, goal) in goals.iter().enumerate() {
        if is_sat(store, goal) {
            return Some(place);
        }
    }
    None
}

/// Whether the goal is sat.
fn is_sat(store: &Store, goal: &Goal) -> bool
    requires has { HasGoal store.now goal.now }
    ensures { result ≡ is_sat (decided (goal_tree store.now goal.now)) }
{
    matches!(goal.decided(store), Decided::Sat)
}

/// Whether each goal is unsat.
fn are_unsat(store: &Store, goals: &[Goal]) -> bool
    requires has { All (HasGoal store.now) goals.now }
    ensures { result ≡ list_all (λ g. is_unsat (decided g)) (goal_trees store.now goals.now) }
{
    for goal in goals {
        if !is_unsat(store, goal) {
            return false;
        }
    }
    true
}

/// Whether the goal is unsat.
fn is_unsat(store: &Store, goal: &Goal) -> bool
    requires has { HasGoal store.now goal.now }
    ensures { result ≡ is_unsat (decided (goal_tree store.now goal.now)) }
{
    matches!(goal.decided(store), Decided::Unsat)
}

/// The empty model, carried back from the goal at a place.
fn lifted(alloc: Global, models: ModelConv, place: usize) -> Result<Answer, AllocError>
    requires within { place < length models }
    ensures { IfOk result (IsLifted (slice_index_or models place [])) }
{
    match models.lift(place, Model::new(alloc)) {
        Ok(model) => Ok(Answer::Sat(model)),
        Err(LiftError::Wide { name }) => Ok(Answer::Unknown(Why::LiftWide(name))),
        Err(LiftError::Memory(refused)) => Err(refused),
    }
}
