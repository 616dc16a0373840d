//! Why a term has no value.
use qterm::TermId;
use std::alloc::AllocError;

/// Why a term has no value of 128 bits.
#[derive(Debug, Drop)]
pub enum EvalError {
    /// This is the first subterm in postorder whose value, or a prefix of whose sum, is outside 128 bits.
    Wide { term: TermId },
    /// There was no memory.
    Memory(AllocError),
}
