//! Tables of tests of whole runs. There is no other code here.
#![tactic(auto)]

#[cfg(test)]
mod answers;
#[cfg(test)]
mod journal;
#[cfg(test)]
mod outside;
#[cfg(test)]
mod setup;
#[cfg(test)]
mod texts;
