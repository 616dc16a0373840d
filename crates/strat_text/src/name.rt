//! The names of reducers.
ghost use Rattle.std.specs.Prelude.{◌≡◌, nat_eq, IfOk};
ghost use Rattle.std.proofs.Common.{rules};
ghost use Rattle.std.specs.Cmp.Rules.{hashing};
ghost use Rattle.std.specs.Hash as fed;
ghost use Rattle.std.specs.Cmp.Lexicographic.{pointwise, nat_list_eq_equiv};
ghost use Rattle.std.specs.Cmp.{partial_equiv_from_equiv};

use std::alloc::{AllocError, Global};
use std::hash::{Hash, Hasher};
use std::marker::Model;

/// The name of a reducer, which contracts see as the list of its bytes.
#[derive(Debug, Drop)]
pub struct ReducerName {
    bytes: Vec<u8>,
}

impl Model for ReducerName {
    ghost use Rattle.std.specs.Prelude.{List, ℕ};

    ghost Value = { List ℕ };

    ghost view = { λ name. name.bytes.items };
}

impl PartialEq for ReducerName {
    ghost eq = { pointwise nat_eq };

    ghost laws = { partial_equiv_from_equiv nat_list_eq_equiv };

    fn eq(&self, other: &ReducerName) -> bool {
        self.bytes.as_slice() == other.bytes.as_slice()
    }
}

impl Eq for ReducerName {
    ghost laws = { nat_list_eq_equiv };
}

impl Hash for ReducerName {
    ghost hash_input = { fed.slice fed.u8 };

    ghost respects_eq = { Prim.search (hashing, rules) };

    fn hash<H: Hasher>(&self, state: &mut H) {
        self.bytes.as_slice().hash(state);
    }
}

impl Clone for ReducerName {
    ghost is_clone = { λ name copied. copied ≡ name };

    fn clone(&self) -> Result<ReducerName, AllocError> {
        Ok(ReducerName {
            bytes: self.bytes.clone()?,
        })
    }
}

impl ReducerName {
    /// The name with this text.
    pub fn new(alloc: Global, text: &[u8]) -> Result<ReducerName, AllocError>
        ensures { IfOk result (λ name. name ≡ text.now) }
    {
        let bytes = Vec::from_slice(alloc, text)?;
        Ok(ReducerName { bytes })
    }

    /// Its text.
    pub fn text(&self) -> &[u8]
        ensures { result.now ≡ self.now }
    {
        self.bytes.as_slice()
    }
}
