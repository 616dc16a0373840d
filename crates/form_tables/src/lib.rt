//! Worked examples, as tables, of linear forms. This crate has tests alone.
#![tactic(auto)]

#[cfg(test)]
mod forms;
