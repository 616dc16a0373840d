//! Symbols with levels.
ghost use Rattle.std.specs.Prelude.{◌≡◌, ◌≤◌, ◌++◌, ◌∷◌, [], List, false, length, None, IfOk, OnOk, OnErr};
ghost use Rattle.std.specs.Map.{lookup};
ghost use Rattle.std.specs.Str.{bytes_eq};
ghost use Rattle.qterm.specs.Tree.{Tree, Var};
ghost use Rattle.qterm.specs.Store.{Has, Shows, Extends};
ghost use Rattle.smt_names.specs.Table.{AreThere};
ghost use Rattle.term_limits.specs.Limits.{IsCounted};
ghost use Rattle.smt_command.specs.Levels as spec;
ghost use Rattle.smt_command.specs.Levels.{IsDeclared};

use crate::levels::{Level, Levels};
use qterm::{Name, Store, Term, TermId};
use smt_names::{Bound, Meaning, Scopes, State, Table};
use std::alloc::{AllocError, Global};
use term_limits::InForce;

/// The symbols in force, as terms are read under them, the assertions in force with their subterms, and the levels that are open.
#[derive(Drop)]
pub struct Symbols {
    pub state: State,
    pub asserts: InForce,
    pub levels: Levels,
}

/// A state without symbols.
fn empty(alloc: Global) -> State
    ensures symbols { result.symbols ≡ [] }
    ensures scopes { result.scopes ≡ [] }
    ensures bound { result.bound ≡ [] }
    ensures in_body { result.in_body ≡ false }
{
    State {
        symbols: Table::new(alloc),
        scopes: Scopes::new(alloc),
        bound: Bound::new(alloc),
        in_body: false,
    }
}

impl Symbols {
    /// No symbols, no assertion and no level, which takes no memory.
    pub fn new(alloc: Global) -> Symbols
        ensures symbols { result.state.symbols ≡ [] }
        ensures scopes { result.state.scopes ≡ [] }
        ensures bound { result.state.bound ≡ [] }
        ensures asserts { result.asserts.ids ≡ [] }
        ensures counted { (ts : List Tree) → IsCounted ts result.asserts }
        ensures levels { result.levels ≡ [] }
    {
        Symbols {
            state: empty(alloc),
            asserts: InForce::new(alloc),
            levels: Levels::new(alloc),
        }
    }

    /// Leaves all scopes and the terms that `let` binds, as it is where a command begins.
    pub(crate) fn begin(&mut self, alloc: Global)
        ensures symbols { self.new.state.symbols ≡ self.old.state.symbols }
        ensures scopes { self.new.state.scopes ≡ [] }
        ensures bound { self.new.state.bound ≡ [] }
        ensures in_body { self.new.state.in_body ≡ false }
        ensures asserts { self.new.asserts ≡ self.old.asserts }
        ensures levels { self.new.levels ≡ self.old.levels }
    {
        self.state.scopes = Scopes::new(alloc);
        self.state.bound = Bound::new(alloc);
        self.state.in_body = false;
    }

    /// A declared name is a symbol from here on.
    pub fn declare(
        &mut self,
        alloc: Global,
        name: &Name,
        store: &mut Store,
    ) -> Result<(), AllocError>
        requires new { lookup (bytes_eq name.now.text) self.old.state.symbols ≡ None }
        requires there { AreThere store.old self.old.state.symbols }
        ensures symbols { OnOk result (IsDeclared store.new name.now self.old.state.symbols self.new.state.symbols) }
        ensures err { OnErr result (self.new.state.symbols ≡ self.old.state.symbols) }
        ensures there { AreThere store.new self.new.state.symbols }
        ensures extends { Extends store.old store.new }
        ensures scopes { self.new.state.scopes ≡ self.old.state.scopes }
        ensures bound { self.new.state.bound ≡ self.old.state.bound }
        ensures asserts { self.new.asserts ≡ self.old.asserts }
        ensures levels { self.new.levels ≡ self.old.levels }
    {
        let id = variable(name, store)?;
        self.state
            .symbols
            .add(alloc, name.text(), Meaning::Declared(id, name.sort()))?;
        Ok(())
    }

    /// A formula is an assertion in force from here on. Its cost is in proportion to its subterms that are new.
    pub fn add_assert(&mut self, store: &Store, id: TermId) -> Result<(), AllocError>
        requires counted { IsCounted store.now self.old.asserts }
        requires has { Has store.now id }
        ensures asserts { OnOk result (self.new.asserts.ids ≡ self.old.asserts.ids ++ id ∷ []) }
        ensures counted { OnOk result (IsCounted store.now self.new.asserts) }
        ensures err { OnErr result (self.new.asserts.ids ≡ self.old.asserts.ids) }
        ensures state { self.new.state ≡ self.old.state }
        ensures levels { self.new.levels ≡ self.old.levels }
    {
        self.asserts.push(store, id)?;
        Ok(())
    }

    /// Where a level begins that is opened here.
    fn mark(&self) -> Level
        ensures { result ≡ spec.mark self.now.state.symbols self.now.asserts.ids }
    {
        Level {
            symbols: self.state.symbols.len(),
            asserts: self.asserts.ids().len(),
        }
    }

    /// Opens n more levels.
    #[tactic(auto, using(crate::proofs::Filled::filled))]
    pub fn push(&mut self, n: u32) -> Result<(), AllocError>
        requires few { length self.old.levels ≤ 65536 }
        ensures levels { OnOk result (self.new.levels ≡ spec.opened n self.old.levels self.old.state.symbols self.old.asserts.ids) }
        ensures err { OnErr result (self.new.levels ≡ self.old.levels) }
        ensures state { self.new.state ≡ self.old.state }
        ensures asserts { self.new.asserts ≡ self.old.asserts }
    {
        let here = self.mark();
        let len = self.levels.len() + n as usize;
        self.levels.fill(len, here)?;
        Ok(())
    }

    /// Closes the last n levels, and takes away the symbols and assertions that came in them.
    pub fn pop(&mut self, n: u32)
        requires enough { n ≤ length self.old.levels }
        ensures levels { self.new.levels ≡ spec.left n self.old.levels }
        ensures symbols { self.new.state.symbols ≡ spec.symbols_left n self.old.levels self.old.state.symbols self.old.asserts.ids }
        ensures asserts { self.new.asserts.ids ≡ spec.asserts_left n self.old.levels self.old.state.symbols self.old.asserts.ids }
        ensures counted { (ts : List Tree) → IsCounted ts self.old.asserts → IsCounted ts self.new.asserts }
        ensures scopes { self.new.state.scopes ≡ self.old.state.scopes }
        ensures bound { self.new.state.bound ≡ self.old.state.bound }
    {
        let rest = self.levels.len() - n as usize;
        let here = self.mark();
        let begin = self.levels.get_or(rest, here);
        self.state.symbols.cut(begin.symbols);
        self.asserts.truncate(begin.asserts);
        self.levels.cut(rest);
    }

    /// Takes away all symbols, assertions and levels.
    pub fn reset(&mut self)
        ensures levels { self.new.levels ≡ [] }
        ensures symbols { self.new.state.symbols ≡ [] }
        ensures asserts { self.new.asserts.ids ≡ [] }
        ensures counted { (ts : List Tree) → IsCounted ts self.old.asserts → IsCounted ts self.new.asserts }
        ensures scopes { self.new.state.scopes ≡ self.old.state.scopes }
        ensures bound { self.new.state.bound ≡ self.old.state.bound }
    {
        self.state.symbols.cut(0);
        self.asserts.truncate(0);
        self.levels.cut(0);
    }
}

/// The name as a term.
pub(crate) fn variable(name: &Name, store: &mut Store) -> Result<TermId, AllocError>
    ensures shows { IfOk result (λ id. Shows store.new id (Var name.now)) }
    ensures extends { Extends store.old store.new }
{
    let name = name.clone()?;
    let id = store.intern(Term::Var(name))?;
    Ok(id)
}
