//! Runs of the checker over texts, and what they leave.

use check_front::check_run;
use sexp_read::{MemSink, MemSource};
use std::alloc::{AllocError, Global};

/// The calls of both sources and of the sink that fail, counted from 1.
#[derive(Clone, Copy)]
pub struct Failing {
    pub script_reads: &'static [u64],
    pub cert_reads: &'static [u64],
    pub writes: &'static [u64],
}

/// Sources and a sink that never fail.
pub const SURE: Failing = Failing {
    script_reads: &[],
    cert_reads: &[],
    writes: &[],
};

/// What a run left.
#[derive(Drop)]
pub struct Left {
    pub status: u8,
    /// How many bytes the script's source has left.
    pub script: usize,
    /// How many bytes the certificate's source has left.
    pub cert: usize,
    pub text: Vec<u8>,
}

/// The words as texts.
fn texts(alloc: Global, words: &[&str]) -> Result<Vec<String>, AllocError> {
    let mut texts = Vec::new(alloc);
    for word in words {
        texts.push(String::from_str(alloc, word)?)?;
    }
    Ok(texts)
}

/// The bytes as a source that gives seven a call.
fn source(alloc: Global, bytes: &[u8], failing: &[u64]) -> Result<MemSource, AllocError> {
    let mut all = Vec::new(alloc);
    all.extend_from_slice(bytes)?;
    let mut calls = Vec::new(alloc);
    calls.extend_from_slice(failing)?;
    Ok(MemSource::new(all, 7, calls))
}

/// A run with these words.
pub fn went(
    alloc: Global,
    words: &[&str],
    script: &[u8],
    cert: &[u8],
    failing: Failing,
) -> Result<Left, AllocError> {
    let words = texts(alloc, words)?;
    let mut script = source(alloc, script, failing.script_reads)?;
    let mut cert = source(alloc, cert, failing.cert_reads)?;
    let mut calls = Vec::new(alloc);
    calls.extend_from_slice(failing.writes)?;
    let mut out = MemSink::new(alloc, 200, 3, calls)?;
    let status = check_run(alloc, &words, &mut script, &mut cert, &mut out);
    let mut text = Vec::new(alloc);
    text.extend_from_slice(out.written())?;
    Ok(Left {
        status,
        script: script.left().len(),
        cert: cert.left().len(),
        text,
    })
}
