//! Scripts: their commands in order.

use crate::command::Command;
use crate::error::ScriptError;
use sqlite_items::Items;

/// A command, with the place of its opening parenthesis in the bytes, counted from 0.
#[derive(Drop)]
pub struct Placed {
    pub command: Command,
    pub place: usize,
}

/// The commands up to the first fault or the end, and the fault, if there is one.
#[derive(Drop)]
pub struct Script {
    pub commands: Items<Placed>,
    pub fault: Option<ScriptError>,
}
