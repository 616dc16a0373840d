//! Texts with meanings, looked up by hash.
ghost use Rattle.std.specs.Prelude.{◌≡◌, ◌<◌, [], ◌∷◌, ◌++◌, None, Some, MatchOption, OnOk, OnErr, length, take, is_some};
ghost use Rattle.std.specs.Map.{lookup};
ghost use Rattle.std.specs.Str.{bytes_eq};

use crate::meaning::Meaning;
use indexmap::IndexMap;
use std::alloc::{AllocError, Global};
use std::marker::Model;

/// Texts with their meanings, which contracts see as the list of these in the order in which they came.
#[derive(Drop)]
pub struct Table {
    meanings: IndexMap<Vec<u8>, Meaning>,
}

impl Model for Table {
    ghost use Rattle.std.specs.Prelude.{List, map};
    ghost use Rattle.smt_names.specs.Table.{Entry};

    ghost Value = { List Entry };

    ghost view = { λ t. map (λ e. (e.0.items, e.1)) t.meanings.entries };
}

impl Table {
    /// No texts, which takes no memory.
    pub fn new(alloc: Global) -> Table
        ensures { result ≡ [] }
    {
        Table {
            meanings: IndexMap::new(alloc),
        }
    }

    /// The meaning of a text.
    pub fn find(&self, text: &[u8]) -> Option<&Meaning>
        ensures { MatchOption result (lookup (bytes_eq text.now) self.now ≡ None) (λ meaning. lookup (bytes_eq text.now) self.now ≡ Some meaning.now) }
    {
        self.meanings.get(text)
    }

    /// Whether a text has a meaning.
    pub fn has(&self, text: &[u8]) -> bool
        ensures { result ≡ is_some (lookup (bytes_eq text.now) self.now) }
    {
        self.find(text).is_some()
    }

    /// How many texts there are.
    pub fn len(&self) -> usize
        ensures { result ≡ length self.now }
    {
        self.meanings.len()
    }

    /// Puts a new text behind the others.
    pub fn add(&mut self, alloc: Global, text: &[u8], meaning: Meaning) -> Result<(), AllocError>
        requires new { lookup (bytes_eq text.now) self.old ≡ None }
        ensures ok { OnOk result (self.new ≡ self.old ++ (text.now, meaning) ∷ []) }
        ensures err { OnErr result (self.new ≡ self.old) }
    {
        let key = Vec::from_slice(alloc, text)?;
        self.meanings.insert(key, meaning)?;
        Ok(())
    }

    /// Takes away all texts but the first `len`.
    pub fn cut(&mut self, len: usize)
        ensures { self.new ≡ take len self.old }
    {
        cut(&mut self.meanings, len);
    }
}

fn cut(meanings: &mut IndexMap<Vec<u8>, Meaning>, len: usize)
    ensures { meanings.new.entries ≡ take len meanings.old.entries }
{
    while meanings.len() > len {
        meanings.pop();
    }
}
