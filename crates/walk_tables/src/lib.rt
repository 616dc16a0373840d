//! Worked examples, as tables, of walks over terms. This crate has tests alone.
#![tactic(auto)]

#[cfg(test)]
mod walks;
