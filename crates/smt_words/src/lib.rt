//! The words of scripts: commands and their words, and what is wrong with a script.
//!
//! The contract for the layer above: the types of commands and errors, and the word, option, sort or flag that a text is, exactly.
#![tactic(auto)]

mod command;
mod error;
mod script;
mod word;

pub use command::{Asked, AskedTerms, Command, Echoed, Info};
pub use error::{ReadError, ScriptError, What, refused};
pub use script::{Placed, Script};
pub use word::{OptionKind, Word, info_named, is_logic, option_kind, sort_named, word_named};
