//! Decides the set of clauses that stands on standard input in DIMACS form, and writes one line: the answer and the number
//! of lemmas that were learnt, or what is wrong.
//!
//! It is there to time the clause solver alone: `bench/time_solver.sh` runs it.
#![tactic(auto)]

mod decide;
mod dimacs;

use decide::{Answer, decide};
use dimacs::{ClauseSet, ReadError, read};
use std::alloc::{AllocError, Global};
use std::io;

fn main(rt: HostRuntime) -> io::Result<()> {
    let text = io::read_to_string(rt.alloc(), rt.reader())?;
    match read(rt.alloc(), text.as_str()) {
        Ok(set) => println!(rt; "{}", line(rt.alloc(), set)?),
        Err(ReadError::Memory(error)) => Err(error.into()),
        Err(wrong) => println!(rt; "error: {wrong}"),
    }
}

/// The answer for a set of clauses, and the number of lemmas.
fn line(alloc: Global, set: ClauseSet) -> Result<String, AllocError> {
    let ClauseSet { vars, clauses } = set;
    let (answer, lemmas) = decide(alloc, vars, clauses)?;
    let word = match answer {
        Answer::Sat => "sat",
        Answer::Unsat => "unsat",
    };
    format!(in alloc; "{word}, lemmas: {lemmas}")
}
