//! Tables of tests of the clause solver, of the races and of what they stand on, a module a crate. There is no other code here.
#![tactic(auto)]

#[cfg(test)]
mod literals;
#[cfg(test)]
mod race_core_table;
#[cfg(test)]
mod race_word_table;
#[cfg(test)]
mod rup_table;
#[cfg(test)]
mod sat_core_table;
