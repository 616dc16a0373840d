//! Tables of texts that are those of certificates, and of texts that are not, with the line that is told. There is no other code here.
#![tactic(auto)]

#[cfg(test)]
mod limits;
#[cfg(test)]
mod malformed;
#[cfg(test)]
mod whole;
