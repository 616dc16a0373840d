//! The steps of a certificate that shift names.
//!
//! Each fresh name is defined as the name less the number. In each formula each name that is shifted is replaced by its fresh name plus the
//! number, and in the end these formulas alone are kept. So there are as many steps as shifts and names of formulas.
#![tactic(auto)]

mod certifying;
mod defining;
mod replacing;
mod trace;

pub use certifying::certify_shifts;
