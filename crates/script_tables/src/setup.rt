//! Runs of scripts over the reducers that are built, and what they leave.

use reducer_iface::{BoxedReducer, Registry};
use script_run::run;
use sexp_read::{MemSink, MemSource};
use std::alloc::{AllocError, Global};
use std::process::Abort;
use std::test::Fail;
use std::thread::Threads;
use strat_text::ReducerName;
use tac_basic::{FailReducer, Skip};
use tac_bounds::{AddBounds, DropWide};
use tac_normal::NormalizeBounds;
use tac_sat::Sat;
use tac_simplify::Simplify;

/// The calls of a source and of a sink that fail, counted from 1.
#[derive(Clone, Copy)]
pub struct Failing {
    pub reads: &'static [u64],
    pub writes: &'static [u64],
}

/// A source and a sink that never fail.
pub const SURE: Failing = Failing {
    reads: &[],
    writes: &[],
};

/// What a run left.
#[derive(Drop)]
pub struct Left {
    pub status: u8,
    /// How many records its journal has.
    pub records: usize,
    /// How many bytes its source has left.
    pub unread: usize,
    pub text: Vec<u8>,
}

/// Inserts a reducer under its name.
fn add(
    alloc: Global,
    registry: &mut Registry,
    name: &[u8],
    reducer: BoxedReducer,
) -> Result<(), AllocError> {
    match registry.insert(ReducerName::new(alloc, name)?, reducer) {
        Ok(()) => Ok(()),
        Err(_) => Err(AllocError),
    }
}

/// The registry of the reducers that are built.
pub fn built(alloc: Global) -> Result<Registry, AllocError> {
    let mut registry = Registry::new(alloc);
    add(alloc, &mut registry, b"skip", Box::new(alloc, Skip)?)?;
    add(alloc, &mut registry, b"fail", Box::new(alloc, FailReducer)?)?;
    add(
        alloc,
        &mut registry,
        b"simplify",
        Box::new(alloc, Simplify)?,
    )?;
    add(
        alloc,
        &mut registry,
        b"normalize-bounds",
        Box::new(alloc, NormalizeBounds)?,
    )?;
    add(
        alloc,
        &mut registry,
        b"add-bounds",
        Box::new(alloc, AddBounds)?,
    )?;
    add(
        alloc,
        &mut registry,
        b"drop-wide",
        Box::new(alloc, DropWide)?,
    )?;
    add(alloc, &mut registry, b"sat", Box::new(alloc, Sat)?)?;
    Ok(registry)
}

/// A run of a script in pieces of one byte.
pub fn went(
    rt: &impl Threads,
    alloc: Global,
    registry: &Registry,
    words: &[&str],
    script: &[u8],
    failing: Failing,
) -> Result<Left, AllocError> {
    let mut all = Vec::new(alloc);
    for word in words {
        all.push(String::from_str(alloc, word)?)?;
    }
    let mut source = MemSource::new(script.to_vec(alloc)?, 1, failing.reads.to_vec(alloc)?);
    let mut out = MemSink::new(alloc, 10_000, 1, failing.writes.to_vec(alloc)?)?;
    let finished = run(rt, alloc, &all, registry, &mut source, &mut out);
    Ok(Left {
        status: finished.status,
        records: finished.journal.len(),
        unread: source.left().len(),
        text: out.written().to_vec(alloc)?,
    })
}

/// A script, the status of a run of it, how many records its journal has, and its text.
pub type Row = (&'static str, u8, usize, &'static str);

/// Asserts that a run of each script, behind these declarations, leaves what its row says, and reads all of it.
pub fn answer(
    rt: &(impl Threads + Abort),
    alloc: Global,
    declarations: &str,
    rows: &[Row],
) -> Result<(), Fail> {
    let registry = built(alloc)?;
    for (rest, status, records, text) in rows {
        let mut script = String::from_str(alloc, declarations)?;
        script.push_str(rest)?;
        let left = went(rt, alloc, &registry, &["run"], script.as_bytes(), SURE)?;
        assert_eq!(rt; left.text.as_slice(), text.as_bytes(), "at {rest}");
        assert_eq!(rt; left.status, *status, "at {rest}");
        assert_eq!(rt; left.records, *records, "at {rest}");
        assert_eq!(rt; left.unread, 0, "at {rest}");
    }
    Ok(())
}
