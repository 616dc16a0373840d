//! Worked examples, as tables, of the canonical form. This crate has tests alone.
#![tactic(auto)]

#[cfg(test)]
mod canonical;
