//! Sessions over scripts: what each command makes of a session, and the texts that are shown.
//!
//! The contract for the layer above: `specs/Output.antt` says which text a script writes, as a function of its commands and the records
//! of its checks. A session does what `specs/Session.antt` says, and each call for a text answers exactly the one that `specs/Shown.antt`
//! defines. It stands on `smt_words` for commands and errors, on `qeval` for values and on `answer_text` for how things are written.
#![tactic(auto)]

mod asking;
mod session;
mod texts;

pub use asking::{AskError, write_asked};
pub use session::{Mark, Session, assert_formula, begin, declare, pop_levels, push_levels, reset};
pub use texts::{option_text, success_text, write_echo, write_fault};
