//! Names and forms of a script's terms: what a name stands for, and the term that an atom or an operator over terms is.
//!
//! The contract for the layer above, which walks down the s-expressions: `atom`, `apply`, `bind` and `annotate` read one level of
//! a term each, exactly, and a `State` carries the symbols in force, the scopes round the term and the terms that count.
#![tactic(auto)]

mod annotation;
mod application;
mod binding;
mod calling;
mod form;
mod head;
mod meaning;
mod naming;
mod state;
mod table;

pub use annotation::{annotate, define};
pub use application::{apply, atom};
pub use binding::{Binding, bind, pair};
pub use calling::call;
pub use form::{
    bare, digits, is_name_text, keyword, may_be_term, may_be_terms, name, name_in, number, place,
    string, text_at,
};
pub use head::Head;
pub use meaning::{Meaning, Params};
pub use naming::{bound_name, head_of, new_name, value};
pub use state::{Bound, Scopes, State};
pub use table::Table;
