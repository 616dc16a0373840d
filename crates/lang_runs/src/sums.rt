//! Limits and sums of lemmas.
ghost use Rattle.std.specs.Prelude.{◌≡◌, ◌+◌, IfOk};
ghost use Rattle.deriv.specs.Derives.{left, lesser};

use std::alloc::AllocError;

/// The sum, where it has 64 bits. What can't be counted counts as want of memory.
pub fn add(a: u64, b: u64) -> Result<u64, AllocError>
    ensures { IfOk result (λ sum. sum ≡ a + b) }
{
    match a.checked_add(b) {
        Some(sum) => Ok(sum),
        None => Err(AllocError),
    }
}

/// What is left of a limit once so many lemmas are spent.
pub fn remains(limit: Option<u64>, spent: u64) -> Option<u64>
    ensures { result ≡ left limit spent }
{
    match limit {
        Some(limit) => Some(limit.saturating_sub(spent)),
        None => None,
    }
}

/// The lesser of a number and a limit.
pub fn lesser(most: u64, limit: Option<u64>) -> Option<u64>
    ensures { result ≡ lesser most limit }
{
    match limit {
        Some(limit) => Some(most.min(limit)),
        None => Some(most),
    }
}
