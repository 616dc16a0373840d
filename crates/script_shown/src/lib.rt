//! What is shown of the answers of checks.
//!
//! The contract for the layer above: each call answers the text that a command writes of the last answer, or why it can't be done, as
//! `script_text` defines both over the trees of a store. It stands on `check_answer` for answers, and on `answer_text` and `cert_text`
//! for how they are written. The laws say that what is shown of an answer stays the same as the store grows.
#![tactic(auto)]

mod showing;
mod stop;
mod texts;

pub use showing::{show_info, show_model, show_proof, show_values};
pub use stop::{Stop, no_answer, unknown_reducer};
pub use texts::{line, write_answer};
