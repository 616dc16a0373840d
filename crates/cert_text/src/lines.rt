//! The terms that have lines, in the order of the lines.
ghost use Rattle.std.specs.Prelude.{◌≡◌, [], ◌∷◌, ◌++◌, false, is_some, position, OnOk, length};
ghost use Rattle.std.specs.List.{list_any};
ghost use Rattle.qwalk.specs.Walk.{same_id};

use indexmap::IndexSet;
use qterm::TermId;
use std::alloc::{AllocError, Global};
use std::marker::Model;

/// The ids of the terms that have lines, which contracts see as a list in the order of the lines.
#[derive(Drop)]
pub(crate) struct Lines {
    ids: IndexSet<TermId>,
}

impl Model for Lines {
    ghost use Rattle.std.specs.Prelude.{List, ℕ};

    ghost Value = { List ℕ };

    ghost view = { λ l. l.ids.keys };
}

impl Lines {
    /// No lines. It takes no memory.
    pub(crate) fn new(alloc: Global) -> Lines
        ensures { result ≡ [] }
    {
        Lines {
            ids: IndexSet::new(alloc),
        }
    }

    /// The place of a term's line, counted from 0.
    pub(crate) fn place(&self, id: TermId) -> Option<usize>
        ensures place { result ≡ position (same_id id) self.now }
        ensures found { is_some result ≡ list_any (same_id id) self.now }
    {
        self.ids.get_index_of(&id)
    }

    /// How many lines there are.
    pub(crate) fn len(&self) -> usize
        ensures { result ≡ length self.now }
    {
        self.ids.len()
    }

    /// Puts a term that has no line behind the others.
    pub(crate) fn add(&mut self, id: TermId) -> Result<(), AllocError>
        requires absent { list_any (same_id id) self.old ≡ false }
        ensures { OnOk result (self.new ≡ self.old ++ id ∷ []) }
    {
        self.ids.insert_full(id)?;
        Ok(())
    }
}
