//! What runs come to together.
ghost use Rattle.std.specs.Prelude.{◌≡◌, ◌<◌, ◌+◌, ◌++◌, ◌∷◌, [], IfOk, IsOkAnd, ℕ, List, length};
ghost use Rattle.proof_conv.specs.Leads.{raised};
ghost use Rattle.lang_runs.specs.declared.ran.Ran.{Ran};
ghost use Rattle.lang_rows.specs.Joined.{IsJoined};

use lang_runs::discard;
use model_conv::{Discarded, ModelConv};
use proof_conv::ProofConv;
use qgoal::Goal;
use sqlite_items::Items;
use std::alloc::{AllocError, Global};

/// The goals of runs behind one another, with the converters of each run, which have to be spent.
pub struct Joined {
    /// The goals.
    pub goals: Items<Goal>,
    /// How many splits stand above each of them.
    pub above: Items<u32>,
    /// For each run its converter of models.
    pub models: Vec<ModelConv>,
    /// For each run its converter of certificates.
    pub proofs: Vec<ProofConv>,
}

/// Goals with the splits above each.
#[derive(Drop)]
pub(crate) struct Reached {
    pub(crate) goals: Items<Goal>,
    pub(crate) above: Items<u32>,
}

impl Joined {
    /// Of no run.
    pub(crate) fn new(alloc: Global) -> Joined
        ensures { (ups : List ℕ) → IsJoined ups [] result }
    {
        Joined {
            goals: Items::new(alloc),
            above: Items::new(alloc),
            models: Vec::new(alloc),
            proofs: Vec::new(alloc),
        }
    }

    /// With one more run behind those that are there, above whose goal so many splits stand.
    pub(crate) fn with(
        self,
        up: u32,
        reached: Reached,
        models: ModelConv,
        proofs: ProofConv,
    ) -> Result<Joined, AllocError>
        ensures goals { IfOk result (λ all. all.goals ≡ self.goals ++ reached.goals) }
        ensures above { IfOk result (λ all. all.above ≡ self.above ++ raised up reached.above) }
        ensures models { IfOk result (λ all. all.models.items ≡ self.models.items ++ models ∷ []) }
        ensures proofs { IfOk result (λ all. all.proofs.items ≡ self.proofs.items ++ proofs ∷ []) }
    {
        let Joined {
            goals,
            above,
            models: all_models,
            proofs: all_proofs,
        } = self;
        let reached = behind(Reached { goals, above }, up, reached);
        let models = with_models(all_models, models);
        let proofs = with_proofs(all_proofs, proofs);
        together(reached, models, proofs)
    }

    /// Spends all converters without a use of them.
    pub(crate) fn discard(self, why: Discarded) {
        let Joined {
            goals: _,
            above: _,
            models,
            proofs,
        } = self;
        discard_models(models, why);
        discard_proofs(proofs, why);
    }
}

/// Goals behind others, with so many more splits above each.
fn behind(before: Reached, up: u32, more: Reached) -> Result<Reached, AllocError>
    ensures goals { IfOk result (λ all. all.goals ≡ before.goals ++ more.goals) }
    ensures above { IfOk result (λ all. all.above ≡ before.above ++ raised up more.above) }
{
    let Reached { mut goals, above } = before;
    let above = raise(above, up, more.above.as_slice())?;
    goals.append(more.goals)?;
    Ok(Reached { goals, above })
}

/// Numbers behind others, each so much greater. Sums past 32 bits count as want of memory.
pub(crate) fn raise(before: Items<u32>, up: u32, more: &[u32]) -> Result<Items<u32>, AllocError>
    ensures { IfOk result (λ all. all ≡ before ++ raised up more.now) }
{
    let mut all = before;
    for splits in more {
        all.push(sum(up, *splits)?)?;
    }
    Ok(all)
}

/// The sum, where it has 32 bits.
fn sum(a: u32, b: u32) -> Result<u32, AllocError>
    ensures { IfOk result (λ sum. sum ≡ a + b) }
{
    match a.checked_add(b) {
        Some(sum) => Ok(sum),
        None => Err(AllocError),
    }
}

/// Converters of models with one more behind them.
pub(crate) fn with_models(
    models: Vec<ModelConv>,
    more: ModelConv,
) -> Result<Vec<ModelConv>, AllocError>
    ensures { IfOk result (λ all. all.items ≡ models.items ++ more ∷ []) }
{
    let mut all = models;
    match all.push(more) {
        Ok(()) => Ok(all),
        Err(failed) => {
            failed.value.discard(Discarded::Memory);
            discard_models(all, Discarded::Memory);
            Err(AllocError)
        }
    }
}

/// Converters of certificates with one more behind them.
fn with_proofs(proofs: Vec<ProofConv>, more: ProofConv) -> Result<Vec<ProofConv>, AllocError>
    ensures { IfOk result (λ all. all.items ≡ proofs.items ++ more ∷ []) }
{
    let mut all = proofs;
    match all.push(more) {
        Ok(()) => Ok(all),
        Err(failed) => {
            failed.value.discard(Discarded::Memory);
            discard_proofs(all, Discarded::Memory);
            Err(AllocError)
        }
    }
}

/// All of it, where each is there.
fn together(
    reached: Result<Reached, AllocError>,
    models: Result<Vec<ModelConv>, AllocError>,
    proofs: Result<Vec<ProofConv>, AllocError>,
) -> Result<Joined, AllocError>
    ensures reached { IfOk result (λ all. IsOkAnd reached (λ r. (all.goals ≡ r.goals) × (all.above ≡ r.above))) }
    ensures models { IfOk result (λ all. IsOkAnd models (λ m. all.models.items ≡ m.items)) }
    ensures proofs { IfOk result (λ all. IsOkAnd proofs (λ p. all.proofs.items ≡ p.items)) }
{
    match models {
        Ok(models) => match proofs {
            Ok(proofs) => match reached {
                Ok(Reached { goals, above }) => Ok(Joined {
                    goals,
                    above,
                    models,
                    proofs,
                }),
                Err(refused) => {
                    discard_models(models, Discarded::Memory);
                    discard_proofs(proofs, Discarded::Memory);
                    Err(refused)
                }
            },
            Err(refused) => {
                discard_models(models, Discarded::Memory);
                Err(refused)
            }
        },
        Err(refused) => {
            if let Ok(proofs) = proofs {
                discard_proofs(proofs, Discarded::Memory);
            }
            Err(refused)
        }
    }
}

/// Spends converters of models without a use of them.
pub(crate) fn discard_models(models: Vec<ModelConv>, why: Discarded) {
    let mut left = models.into_iter();
    while let Some(conv) = left.next() {
        conv.discard(why);
    }
    left.destroy_empty();
}

/// Spends converters of certificates without a use of them.
pub(crate) fn discard_proofs(proofs: Vec<ProofConv>, why: Discarded) {
    let mut left = proofs.into_iter();
    while let Some(conv) = left.next() {
        conv.discard(why);
    }
    left.destroy_empty();
}
