//! Worked examples, as a table, of functions over arguments. This crate has tests alone.
#![tactic(auto)]

#[cfg(test)]
mod calls;
