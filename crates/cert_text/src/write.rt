//! Certificates, whole.
ghost use Rattle.std.specs.Prelude.{◌≡◌, ◌++◌, IfOk, OnOk};
ghost use Rattle.qterm.specs.Store.{trees_of};
ghost use Rattle.tac_cert.specs.Accepts as rules;
ghost use Rattle.tac_cert.specs.declared.cert.Close.{out-Close};
ghost use Rattle.cert_text.specs.CertText as spec;
ghost use Rattle.cert_text.specs.Waiting.{AreLines};

use crate::lines::Lines;
use crate::steps::push_steps;
use crate::words::{push_count, push_length, push_word, put};
use qterm::Store;
use std::alloc::{AllocError, Global};
use tac_cert::{Cert, Close, Proof};

/// How many splits may stand one in another.
const MOST_SPLITS: u32 = 2_048;

/// The text of a certificate, whose terms are terms of the store. Each distinct term has one line.
///
/// Where splits stand more than 2,048 deep, which no accepted certificate has, the cases of those past them are left out.
pub fn write_cert(alloc: Global, store: &Store, cert: &Cert) -> Result<Vec<u8>, AllocError>
    requires fits { rules.CertFits store.now cert.now }
    ensures { IfOk result (λ text. text.items ≡ spec.cert_text store.now cert.now) }
{
    let mut text = Vec::new(alloc);
    let mut lines = Lines::new(alloc);
    push_head(&mut text, cert)?;
    push_proof(alloc, &mut text, &mut lines, store, MOST_SPLITS, &cert.root)?;
    put(&mut text, b"end\n")?;
    Ok(text)
}

/// Adds the head of a certificate.
fn push_head(text: &mut Vec<u8>, cert: &Cert) -> Result<(), AllocError>
    ensures { OnOk result (text.new.items ≡ text.old.items ++ spec.head_line cert.now) }
{
    put(text, b"tacert")?;
    push_word(text, b"1")?;
    push_count(text, cert.check)?;
    push_count(text, cert.asserts)?;
    put(text, b"\n")
}

/// Adds a proof, where `left` more splits may stand one in another.
#[cycle(proof)]
fn push_proof(
    alloc: Global,
    text: &mut Vec<u8>,
    lines: &mut Lines,
    store: &Store,
    left: u32,
    proof: &Proof,
) -> Result<(), AllocError>
    requires fits { rules.ProofFits store.now left proof.now }
    requires lines { AreLines store.now lines.old }
    ensures text { OnOk result (text.new.items ≡ text.old.items ++ (spec.written store.now left (trees_of store.now lines.old) proof.now).text) }
    ensures known { OnOk result (trees_of store.now lines.new ≡ (spec.written store.now left (trees_of store.now lines.old) proof.now).known) }
    ensures lines { OnOk result (AreLines store.now lines.new) }
{
    push_steps(alloc, text, lines, store, proof.steps.as_slice())?;
    push_close(text, &proof.close)?;
    match &proof.close {
        Close::Split { cases, .. } if left > 0 => {
            push_cases(alloc, text, lines, store, left - 1, cases.as_slice())
        }
        _ => Ok(()),
    }
}

/// Adds the closing line of a proof.
fn push_close(text: &mut Vec<u8>, close: &Close) -> Result<(), AllocError>
    ensures { OnOk result (text.new.items ≡ text.old.items ++ spec.close_line (out-Close close.now)) }
{
    match close {
        Close::False(item) => {
            put(text, b"false")?;
            push_count(text, *item)?;
        }
        Close::Split { item, cases } => {
            put(text, b"split")?;
            push_count(text, *item)?;
            push_length(text, cases.len())?;
        }
    }
    put(text, b"\n")
}

/// Adds cases, one behind the other.
#[cycle(proof)]
fn push_cases(
    alloc: Global,
    text: &mut Vec<u8>,
    lines: &mut Lines,
    store: &Store,
    left: u32,
    cases: &[Proof],
) -> Result<(), AllocError>
    requires fits { rules.EachFits (rules.ProofFits store.now left) cases.now }
    requires lines { AreLines store.now lines.old }
    ensures text { OnOk result (text.new.items ≡ text.old.items ++ (spec.each_case (spec.written store.now left) (trees_of store.now lines.old) cases.now).text) }
    ensures known { OnOk result (trees_of store.now lines.new ≡ (spec.each_case (spec.written store.now left) (trees_of store.now lines.old) cases.now).known) }
    ensures lines { OnOk result (AreLines store.now lines.new) }
{
    for case in cases {
        push_proof(alloc, text, lines, store, left, case)?;
    }
    Ok(())
}
