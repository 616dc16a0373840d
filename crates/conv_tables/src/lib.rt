//! Tables of converters of models, and of what derivations are made of. There is no other code here.
#![tactic(auto)]

#[cfg(test)]
mod copies;
#[cfg(test)]
mod lifting;
