//! Tables of the crates on goals: each public call on its good path, with answers from the definitions.
#![tactic(auto)]

#[cfg(test)]
mod goals;
#[cfg(test)]
mod names;
