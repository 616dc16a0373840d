//! Strategies as text, as tables. This crate has tests alone.
#![tactic(auto)]

#[cfg(test)]
mod strategies;
