//! Names and terms as the tables of tests make them. It stands in a crate of its own so that it is proved once for all of them.
#![tactic(auto)]

mod made;

pub use made::{Plain, has_all, list, named, put, put_and, put_name, put_or, put_sum};
