//! Tables of checks, and of runs of strategies alone: what their records answer; and worked derivations. There is no other code here.
#![tactic(auto)]

#[cfg(test)]
mod checks;
#[cfg(test)]
mod deep;
#[cfg(test)]
mod texts;
mod worked;

pub use worked::worked_derivations;
