//! What reading goes on from: the symbols in force, the scopes round a term, and the terms that count.
ghost use Rattle.std.specs.Prelude.{◌≡◌, [], ◌∷◌, ◌++◌, OnOk, OnErr};
ghost use Rattle.smt_names.specs.Names.{local_id};
ghost use Rattle.smt_names.specs.Text.{behind_first};

use crate::naming::local;
use crate::table::Table;
use qterm::TermId;
use std::alloc::{AllocError, Global};
use std::marker::Model;

/// The scopes round a term, which contracts see as a list, the innermost first.
#[derive(Drop)]
pub struct Scopes {
    tables: Vec<Table>,
}

impl Model for Scopes {
    ghost use Rattle.std.specs.Prelude.{List, reverse};
    ghost use Rattle.smt_names.specs.Table.{Entry};

    ghost Value = { List (List Entry) };

    ghost view = { λ s. reverse s.tables.items };
}

impl Scopes {
    /// No scope.
    pub fn new(alloc: Global) -> Scopes
        ensures { result ≡ [] }
    {
        Scopes {
            tables: Vec::new(alloc),
        }
    }

    /// The term that a bound name stands for, in the innermost scope that binds it.
    pub fn find(&self, name: &[u8]) -> Option<TermId>
        ensures { result ≡ local_id self.now name.now }
    {
        local(&self.tables, name)
    }

    /// One more scope, inside the others.
    pub fn enter(&mut self, scope: Table) -> Result<(), AllocError>
        ensures ok { OnOk result (self.new ≡ scope ∷ self.old) }
        ensures err { OnErr result (self.new ≡ self.old) }
    {
        self.tables.push(scope)?;
        Ok(())
    }

    /// The innermost scope is left.
    pub fn leave(&mut self)
        ensures { self.new ≡ behind_first self.old }
    {
        self.tables.pop();
    }
}

/// Terms that count though they needn't stand in what is read, which contracts see as the list of their ids.
#[derive(Drop)]
pub struct Bound {
    ids: Vec<TermId>,
}

impl Model for Bound {
    ghost use Rattle.std.specs.Prelude.{List, ℕ};

    ghost Value = { List ℕ };

    ghost view = { λ b. b.ids.items };
}

impl Bound {
    /// No term.
    pub fn new(alloc: Global) -> Bound
        ensures { result ≡ [] }
    {
        Bound {
            ids: Vec::new(alloc),
        }
    }

    /// One more term.
    pub fn push(&mut self, id: TermId) -> Result<(), AllocError>
        ensures ok { OnOk result (self.new ≡ self.old ++ id ∷ []) }
        ensures err { OnErr result (self.new ≡ self.old) }
    {
        self.ids.push(id)?;
        Ok(())
    }

    /// More terms.
    pub fn extend(&mut self, ids: &[TermId]) -> Result<(), AllocError>
        ensures ok { OnOk result (self.new ≡ self.old ++ ids.now) }
        ensures err { OnErr result (self.new ≡ self.old) }
    {
        self.ids.extend_from_slice(ids)?;
        Ok(())
    }

    /// The ids in order.
    pub fn as_slice(&self) -> &[TermId]
        ensures { result.now ≡ self.now }
    {
        self.ids.as_slice()
    }
}

/// What reading goes on from.
#[derive(Drop)]
pub struct State {
    /// The symbols in force.
    pub symbols: Table,
    /// The scopes round the term that is read.
    pub scopes: Scopes,
    /// The terms that count though they needn't stand in what is read: those that `let` binds, and arguments.
    pub bound: Bound,
    /// Whether the term is the body of a function, in which no term gets a name.
    pub in_body: bool,
}
