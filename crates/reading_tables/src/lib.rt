//! Scripts that are read, as tables: the plain terms of formulas, the commands in order, and each fault at its place. This crate has
//! tests alone.
#![tactic(auto)]

#[cfg(test)]
mod faults;
#[cfg(test)]
mod functions;
#[cfg(test)]
mod levels;
#[cfg(test)]
mod many;
#[cfg(test)]
mod scripts;
#[cfg(test)]
mod terms;
