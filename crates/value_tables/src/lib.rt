//! Worked examples, as tables, of values and models. This crate has tests alone.
#![tactic(auto)]

#[cfg(test)]
mod values;
