//! The items of a certificate's walk as the checker holds them: formulas and words over the terms of a store.
//!
//! A `State` holds the items and, beside them, which names occur and which bounds names have, so that a rule asks neither of
//! every item. What items say under a valuation stands in `specs/`, with the law that fresh names may take any values.
#![tactic(auto)]

mod bounds;
mod held;
mod names;
mod numbers;
mod occurs;
mod seen;
mod state;

pub use bounds::Bounds;
pub use held::{Held, Word, copy_held, formula_at, item, one, word_at};
pub use names::{all_bool, all_int, distinct, is_int, same_sort};
pub use numbers::{narrow, narrow_form};
pub use state::{State, are_fresh, occurs_in};
