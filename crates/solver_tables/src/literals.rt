//! Literals and clauses as DIMACS writes them. Variables are numbered from 1, so that variable 0 stands in no clause.
use rup::{Clause, Lit};
use std::alloc::{AllocError, Global};

pub fn lit(number: i32) -> Lit {
    Lit {
        var: number.unsigned_abs(),
        positive: number > 0,
    }
}

pub fn lits(alloc: Global, numbers: &[i32]) -> Result<Vec<Lit>, AllocError> {
    numbers.iter().map(|n| lit(*n)).collect(alloc)
}

/// Clauses, each ended by 0.
pub fn clauses(alloc: Global, numbers: &[i32]) -> Result<Vec<Clause>, AllocError> {
    let mut all = Vec::new(alloc);
    let mut open = Vec::new(alloc);
    for n in numbers {
        if *n == 0 {
            all.push(Clause::from_vec(open))?;
            open = Vec::new(alloc);
        } else {
            open.push(lit(*n))?;
        }
    }
    Ok(all)
}
