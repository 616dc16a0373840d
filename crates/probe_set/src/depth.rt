//! The depth of formulas.
ghost use Rattle.std.specs.Prelude.{◌≡◌, ◌+◌, All, IfOk};
ghost use Rattle.qterm.specs.Store.{Has, trees_of};
ghost use Rattle.tac_cert.specs.Depth.{depth};
ghost use Rattle.probe_set.specs.Measures.{deepest, greatest};

use qterm::{Store, TermId};
use qwalk::{Scan, scan_all};
use std::alloc::{AllocError, Global};

/// The greatest depth of formulas, a leaf having 1; 0 where there is no formula.
pub fn deepest(alloc: Global, store: &Store, formulas: &[TermId]) -> Result<usize, AllocError>
    requires has { All (Has store.now) formulas.now }
    ensures { IfOk result (λ n. n ≡ deepest (trees_of store.now formulas.now)) }
{
    let depths = scan_all(alloc, store, &mut Depths, formulas)?;
    let n = greatest(depths.as_slice());
    Ok(n)
}

/// The walk for depths.
#[derive(Drop)]
struct Depths;

impl Scan<usize> for Depths {
    type Task = ();

    ghost task = { λ _. tt };

    ghost right = { λ _ ts t o. o ≡ depth t };

    fn node(&mut self, _store: &Store, _id: TermId, outs: &[usize]) -> Result<usize, AllocError> {
        match greatest(outs).checked_add(1) {
            Some(depth) => Ok(depth),
            None => Err(AllocError),
        }
    }
}

/// The greatest of numbers, 0 where there is none.
fn greatest(numbers: &[usize]) -> usize
    ensures { result ≡ greatest numbers.now }
{
    let mut most = 0usize;
    for number in numbers {
        most = most.max(*number);
    }
    most
}
