//! Scripts of SMT-LIB 2.6 run from bytes to bytes.
//!
//! The contract for the layer above: `run` reads a script from a source and writes its answers to a sink. What it
//! writes is the text of the script's commands by its journal, and each answer of the journal is right. It stands on
//! `smt_command` for the commands, on `script_text` and `script_shown` for sessions and what they show, on `check_record` for checks, and on
//! `sexp_read` for the outside.
#![tactic(auto)]

mod checks;
mod passing;
mod running;
mod stepping;
mod top;

pub use check_record::{Answer, CheckRecord, Why};
pub use checks::Decider;
pub use top::{Ended, Finished, run};
