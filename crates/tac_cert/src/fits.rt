//! The test whether the terms of a certificate are terms of a store.
ghost use Rattle.std.specs.Prelude.{IsTrue, ◌↔◌};
ghost use Rattle.tac_cert.specs.Gives.{StepFits};
ghost use Rattle.tac_cert.specs.Accepts as rules;

use crate::cert::{Cert, Close, Proof, Step};
use qterm::Store;

/// How many splits may stand one in another.
const MOST_SPLITS: u32 = 2_048;

/// Whether the terms that a certificate names, as far as splits may stand, are terms of the store.
pub fn cert_fits(store: &Store, cert: &Cert) -> bool
    ensures { IsTrue result ↔ rules.CertFits store.now cert.now }
{
    proof_fits(store, MOST_SPLITS, &cert.root)
}

/// Whether the terms of a proof are there, where `left` more splits may stand one in another.
#[cycle(fits)]
fn proof_fits(store: &Store, left: u32, proof: &Proof) -> bool
    ensures { IsTrue result ↔ rules.ProofFits store.now left proof.now }
{
    if !steps_fit(store, proof.steps.as_slice()) {
        return false;
    }
    match &proof.close {
        Close::Split { cases, .. } if left > 0 => cases_fit(store, left - 1, cases.as_slice()),
        _ => true,
    }
}

/// Whether the terms of each proof are there.
#[cycle(fits)]
fn cases_fit(store: &Store, left: u32, cases: &[Proof]) -> bool
    ensures { IsTrue result ↔ rules.EachFits (rules.ProofFits store.now left) cases.now }
{
    for case in cases {
        if !proof_fits(store, left, case) {
            return false;
        }
    }
    true
}

/// Whether the terms of the steps are there.
fn steps_fit(store: &Store, steps: &[Step]) -> bool
    ensures { IsTrue result ↔ rules.StepsFit store.now steps.now }
{
    for step in steps {
        if !step_fits(store, step) {
            return false;
        }
    }
    true
}

/// Whether the terms of a step are there.
fn step_fits(store: &Store, step: &Step) -> bool
    ensures { IsTrue result ↔ StepFits store.now step.now }
{
    match step {
        Step::Rw { formula, .. } => store.has(*formula),
        Step::Def { term, .. } => store.has(*term),
        Step::Subst { from, to, .. } => store.has(*from) && store.has(*to),
        Step::Table { clause, .. } => store.has(*clause),
        Step::Rup { clause, .. } => store.has(*clause),
        _ => true,
    }
}
