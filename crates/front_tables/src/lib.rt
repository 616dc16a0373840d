//! Tables of scripts and certificates, and the lines that tell what they come to. There is no other code here.
#![tactic(auto)]

#[cfg(test)]
mod findings;
#[cfg(test)]
mod outside;
#[cfg(test)]
mod setup;
