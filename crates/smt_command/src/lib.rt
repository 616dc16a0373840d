//! Commands of a script, from its bytes.
//!
//! The contract for the layer above: `commands` gives the script that the bytes spell, with its terms in a store, exactly; it reads until
//! `exit`, the end or the first fault. `read_command` gives the command that one s-expression spells under the symbols in force,
//! which it changes, or the first refusal with its place, after which they are as before.
#![tactic(auto)]

mod argument;
mod assertion;
mod command;
mod declaration;
mod definition;
mod kind;
mod levels;
mod limits;
mod option;
mod parameter;
mod pushing;
mod question;
mod read;
mod reading;
mod symbols;
mod using;

pub use levels::{Level, Levels};
pub use limits::DEPTH;
pub use pushing::LEVELS;
pub use read::read_command;
pub use reading::commands;
pub use symbols::Symbols;
