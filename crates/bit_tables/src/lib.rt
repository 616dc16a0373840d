//! Tables of names that are split into bits. There is no other code here.
#![tactic(auto)]

#[cfg(test)]
mod splits;
