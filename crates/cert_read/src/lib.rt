//! Certificates from their texts.
//!
//! The contract for the layer above: `read_cert` gives a certificate only where the bytes are its text, as `cert_text` defines it. It
//! stands on `tac_cert` for certificates and on `cert_text` for their texts. Time is in proportion to the text. No call nests with
//! the depth of a term or the number of lines; calls nest with the splits of a proof, 2,048 at most.
#![tactic(auto)]

mod fault;
mod heads;
mod lines;
mod names;
mod nest;
mod numbers;
mod read;
mod steps;
mod terms;
mod text;
mod words;

pub use read::{BadCert, read_cert};
