//! The check of a certificate's text against a script's text.
//!
//! The contract for the layer above: `check_run` reads a script and a certificate from two sources and writes one line: that the
//! certificate is accepted, or why it isn't. It stands on `cert_read` and `smt_command` for the texts, on `cert_check` for the
//! rules, and on `sexp_read` for the outside.
#![tactic(auto)]

mod cutting;
mod finding;
mod judging;
mod lines;
mod naming;
mod reading;
mod top;

pub use finding::{Finding, MOST_CERT, MOST_SCRIPT};
pub use top::{Ended, USAGE, check_run, script_path};
