//! The canonical form of terms, over shared terms.
//!
//! `canon` gives the canonical term, or the first subterm in postorder that has none; `canon_list` does the same for a list of
//! formulas. `canon_with` and `canon_list_with` take a table of what was found before, which the caller keeps. The definition
//! stands in `qlin`, and its laws in `qcanon_laws`.
#![tactic(auto)]

mod atom;
mod chain;
mod error;
mod form;
mod forms;
mod list;
mod sum;
mod walk;

pub use error::CanonError;
pub use forms::Forms;
pub use list::{canon_list, canon_list_with};
pub use walk::{canon, canon_with};
