//! Certificates: what one is, and which certificates are accepted against a list of formulas.
//!
//! The contract for the layer above is the definition `Accepts`, which stands in `specs/`: a walk over lists of trees by the
//! rules of the format. The checker and the converters of proofs are built on it.
#![tactic(auto)]

mod cert;
mod fits;

pub use cert::{Cert, Close, Proof, Step, renumber};
pub use fits::cert_fits;
