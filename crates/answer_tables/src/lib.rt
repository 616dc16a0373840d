//! Texts of answers, as tables: each text byte for byte. This crate has tests alone.
#![tactic(auto)]

#[cfg(test)]
mod answers;
#[cfg(test)]
mod goals;
