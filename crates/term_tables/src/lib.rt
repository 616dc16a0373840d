//! Worked examples, as tables, of terms. This crate has tests alone.
#![tactic(auto)]

#[cfg(test)]
mod terms;
