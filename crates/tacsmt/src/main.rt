//! Reads a script from standard input, and writes its answers to standard output.
//!
//! This is the trusted edge: it makes the reducers, the real source and sink, calls the top call and ends with its status.
#![tactic(auto)]

use reducer_iface::Registry;
use script_run::run;
use sexp_read::{Sink, Source, StdSink, StdSource};
use std::alloc::{AllocError, Global};
use std::process::ExitCode;
use std::thread::Threads;
use std::{env, io};
use strat_text::ReducerName;
use tac_basic::{FailReducer, Skip};
use tac_bounds::{AddBounds, DropWide};
use tac_normal::NormalizeBounds;
use tac_sat::Sat;
use tac_simplify::Simplify;

/// The status of a run without memory for its reducers.
const NO_MEMORY: u8 = 3;

fn main(rt: HostRuntime) -> ExitCode {
    let words = words(&rt);
    let mut script = StdSource::new(rt.reader());
    let mut out = StdSink::new(io::writer(&rt));
    match status(&rt, rt.alloc(), &words, &mut script, &mut out) {
        Ok(status) => ExitCode::from(status),
        Err(_) => ExitCode::from(NO_MEMORY),
    }
}

// Runs the words with the reducers that are built, and answers the status; an error where there is no memory for these.
fn status(
    rt: &impl Threads,
    alloc: Global,
    words: &[String],
    script: &mut impl Source,
    out: &mut impl Sink,
) -> Result<u8, AllocError> {
    let mut registry = Registry::new(alloc);
    let inserted = [
        registry.insert(ReducerName::new(alloc, b"skip")?, Box::new(alloc, Skip)?),
        registry.insert(
            ReducerName::new(alloc, b"fail")?,
            Box::new(alloc, FailReducer)?,
        ),
        registry.insert(
            ReducerName::new(alloc, b"simplify")?,
            Box::new(alloc, Simplify)?,
        ),
        registry.insert(
            ReducerName::new(alloc, b"normalize-bounds")?,
            Box::new(alloc, NormalizeBounds)?,
        ),
        registry.insert(
            ReducerName::new(alloc, b"add-bounds")?,
            Box::new(alloc, AddBounds)?,
        ),
        registry.insert(
            ReducerName::new(alloc, b"drop-wide")?,
            Box::new(alloc, DropWide)?,
        ),
        registry.insert(ReducerName::new(alloc, b"sat")?, Box::new(alloc, Sat)?),
    ];
    if inserted.iter().any(|it| it.is_err()) {
        return Err(AllocError);
    }
    Ok(run(rt, alloc, words, &registry, script, out).status)
}

// The words of the command line, without the program's name; one that is no text counts as a wrong word. There are none at all
// where there is no memory for one of them, so that no command is taken for another.
fn words(rt: &HostRuntime) -> Vec<String> {
    let mut words = Vec::new(rt.alloc());
    let Ok(all) = env::args(rt) else {
        return words;
    };
    for word in all.skip(1) {
        if words.push(word).is_err() {
            return Vec::new(rt.alloc());
        }
    }
    words
}
