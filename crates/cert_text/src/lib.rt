//! Certificates as text.
//!
//! The contract for the layer above: `write_cert` answers the one text of a certificate, which `specs/CertText.antt` defines. It stands
//! on `tac_cert` for certificates and on `symbol_text` for names. No call nests with the depth of a term; calls nest with the splits
//! of a proof, 2,048 at most.
#![tactic(auto)]

mod lines;
mod steps;
mod terms;
mod words;
mod write;

pub use write::write_cert;
