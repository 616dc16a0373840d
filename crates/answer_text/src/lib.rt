//! The texts of answers: terms, values, models, goals, causes of failures, and the lines of reasons, information and faults.
//!
//! The contract for the layer above: each call answers the text that `specs` defines. It stands on `qterm` and `qeval` for what
//! is written, on `qgoal` and `deriv` for goals and causes, on `symbol_text` for symbols, on `strat_text` for the spelling of forms
//! and numbers, and on `sexp_read` for lines and columns, and on `smt_words` for faults. No call nests with the depth of a term, and each takes time in
//! proportion to its text and to the distinct subterms of the goals that it shows.
#![tactic(auto)]

mod cause;
mod error;
mod goals;
mod line;
mod model;
mod number;
mod size;
mod term;
mod values;

pub use cause::write_cause;
pub use error::write_error;
pub use goals::write_goals;
pub use line::{
    ERROR_BEHAVIOR, FAILED_MEMOUT, INCOMPLETE, MEMOUT, NAME, SAT, SUCCESS, UNKNOWN, UNSAT,
    UNSUPPORTED, VERSION, write_failed, write_failed_reason, write_wide_reason,
};
pub use model::write_model;
pub use term::write_term;
pub use values::{ValueRow, write_values};
