//! Tables of tests of the crates of texts, a module a crate. There is no other code here.
#![tactic(auto)]

#[cfg(test)]
mod sexp_read_table;
#[cfg(test)]
mod strat_text_table;
#[cfg(test)]
mod symbol_text_table;
