//! The state of a walk.
//!
//! An item costs the terms that weren't there before. A mark for each item says what there was before it, so that the last items can
//! be taken back, as after a case, and nothing has to be copied or looked through.
ghost use Rattle.std.specs.Prelude.{◌≡◌, ◌∷◌, ◌++◌, [], ◌<◌, ◌≤◌, take, length, ◌-◌, ◌||◌, false, IfOk, IfSome, OnOk, List};
ghost use Rattle.std.specs.List.{list_any};
ghost use Rattle.qwalk.specs.Walk.{same_id};
ghost use Rattle.qterm.specs.Tree.{Tree, Var};
ghost use Rattle.qterm.specs.Store.{Has, Extends, Shows, tree_at};
ghost use Rattle.cert_items.specs.Bounded.{no_bounds, bounds_in};
ghost use Rattle.std.specs.Option.{option_map};
ghost use Rattle.cert_items.specs.Held.{IsIn, kept};
ghost use Rattle.qwalk.specs.Seen.{AreSubterms};
ghost use Rattle.cert_items.specs.Seen.{all_roots, roots};
ghost use Rattle.cert_items.specs.State.{IsState, IsMarked, items_of, AreBounds, Changed, IsRestored};
ghost use Rattle.cert_items.specs.Truth.{with_sort};
ghost use Rattle.tac_cert.specs.Items as lists;
ghost use Rattle.tac_cert.specs.Names as texts;

use crate::bounds::{BoundMap, Bounds, given_by, tighten};
use crate::held::{Held, copy_at};
use crate::names::distinct;
use crate::occurs::occurs_below;
use crate::seen::see_item;
use qterm::{Name, Sort, Store, Term, TermId};
use qwalk::Seen;
use sqlite_items::Items;
use std::alloc::{AllocError, Global};

/// The bounds of a name before an item changed them.
#[derive(Clone, Copy)]
pub(crate) struct Change {
    pub name: TermId,
    pub was: Bounds,
}

/// What there was before an item: the number of terms, and the bounds that the item changed.
#[derive(Clone, Copy)]
pub(crate) struct Mark {
    pub seen: usize,
    pub change: Option<Change>,
}

/// The items of a walk, which names occur in them, and which bounds names have.
#[derive(Drop)]
pub struct State {
    items: Items<Held>,
    seen: Seen,
    bounds: BoundMap,
    marks: Vec<Mark>,
}

impl State {
    /// No items. It takes no memory.
    pub fn new(alloc: Global) -> State
        ensures items { result.items ≡ [] }
        ensures state { (ts : List Tree) → IsState ts result }
    {
        State {
            items: Items::new(alloc),
            seen: Seen::new(alloc),
            bounds: BoundMap::new(alloc),
            marks: Vec::new(alloc),
        }
    }

    /// The items, in order.
    pub fn items(&self) -> &[Held]
        ensures { result.now ≡ self.now.items }
    {
        self.items.as_slice()
    }

    /// Puts an item behind the others.
    pub fn push(&mut self, alloc: Global, store: &Store, item: Held) -> Result<(), AllocError>
        requires state { IsState store.now self.old }
        requires item { IsIn store.now item }
        ensures items { OnOk result (self.new.items ≡ self.old.items ++ item ∷ []) }
        ensures state { OnOk result (IsState store.now self.new) }
    {
        store.is_distinct();
        let before = self.seen.len();
        see_item(alloc, store, &mut self.seen, self.items.as_slice(), &item)?;
        let change = self.bound(store, &item)?;
        self.marks.push(Mark {
            seen: before,
            change,
        })?;
        self.items.push(item)?;
        Ok(())
    }

    /// The items of those numbers in a state of their own, or nothing where a number has none.
    ///
    /// It costs their words, and each distinct subterm of these items once, whatever else this state has.
    pub fn kept(
        &self,
        alloc: Global,
        store: &Store,
        numbers: &[u32],
    ) -> Result<Option<State>, AllocError>
        requires state { IsState store.now self.now }
        ensures items { IfOk result (λ o. option_map (λ s. s.items) o ≡ kept self.now.items numbers.now) }
        ensures state { IfOk result (λ o. IfSome o (IsState store.now)) }
    {
        let mut state = State::new(alloc);
        for number in numbers {
            match copy_at(alloc, self.items(), *number)? {
                Some(held) => state.push(alloc, store, held)?,
                None => return Ok(None),
            }
        }
        Ok(Some(state))
    }

    /// Takes the items back that stand behind the first `len`.
    pub fn cut(&mut self, store: &Store, len: usize) -> Result<(), AllocError>
        requires state { IsState store.now self.old }
        requires len { len ≤ length self.old.items }
        ensures items { OnOk result (self.new.items ≡ take len self.old.items) }
        ensures state { OnOk result (IsState store.now self.new) }
    {
        while self.items.len() > len {
            self.pop(store)?;
        }
        Ok(())
    }

    /// Takes the last item back.
    fn pop(&mut self, store: &Store) -> Result<(), AllocError>
        requires state { IsState store.now self.old }
        requires some { 0 < length self.old.items }
        ensures items { OnOk result (self.new.items ≡ take (length self.old.items - 1) self.old.items) }
        ensures state { OnOk result (IsState store.now self.new) }
    {
        let _size = store.size();
        drop_last(&mut self.items);
        match self.marks.pop() {
            None => Ok(()),
            Some(mark) => {
                self.restore(mark.change)?;
                self.seen.truncate(mark.seen);
                Ok(())
            }
        }
    }

    /// Puts the bounds back that an item changed.
    fn restore(&mut self, change: Option<Change>) -> Result<(), AllocError>
        ensures items { self.new.items ≡ self.old.items }
        ensures seen { self.new.seen ≡ self.old.seen }
        ensures marks { self.new.marks ≡ self.old.marks }
        ensures bounds { OnOk result (IsRestored change (bounds_in self.old.bounds) (bounds_in self.new.bounds)) }
    {
        match change {
            None => Ok(()),
            Some(change) => {
                self.bounds.note(change.name, change.was)?;
                Ok(())
            }
        }
    }

    /// The bounds of the name that a term is; of no use where it is none.
    pub fn bounds(&self, store: &Store, id: TermId) -> Bounds
        requires state { IsState store.now self.now }
        requires has { Has store.now id }
        ensures { AreBounds store.now (items_of store.now self.now) id result }
    {
        store.is_distinct();
        self.bounds.look(id)
    }

    /// Notes the bounds that an item gives: which bounds it changed.
    fn bound(&mut self, store: &Store, item: &Held) -> Result<Option<Change>, AllocError>
        requires item { IsIn store.now item.now }
        ensures items { self.new.items ≡ self.old.items }
        ensures seen { self.new.seen ≡ self.old.seen }
        ensures marks { self.new.marks ≡ self.old.marks }
        ensures changed { IfOk result (Changed store.now item.now (bounds_in self.old.bounds) (bounds_in self.new.bounds)) }
    {
        match item {
            Held::OfWord(_) => Ok(None),
            Held::Formula(id) => match given_by(store, *id) {
                None => Ok(None),
                Some(given) => {
                    let was = self.bounds.look(given.name);
                    self.bounds.note(given.name, tighten(was, given.bounds))?;
                    Ok(Some(Change {
                        name: given.name,
                        was,
                    }))
                }
            },
        }
    }
}

/// Drops the last item.
fn drop_last(items: &mut Items<Held>)
    requires some { 0 < length items.old }
    ensures { items.new ≡ take (length items.old - 1) items.old }
{
    let _item = items.pop();
}

/// Whether no two of the names have the same bytes, and none occurs in an item, by its bytes.
pub fn are_fresh(
    alloc: Global,
    store: &mut Store,
    state: &State,
    names: &[Name],
) -> Result<bool, AllocError>
    requires state { IsState store.old state.now }
    ensures value { IfOk result (λ b. b ≡ lists.fresh names.now (items_of store.old state.now)) }
    ensures extends { Extends store.old store.new }
{
    if distinct(names) {
        let found = any_occurs(alloc, store, state, names)?;
        Ok(!found)
    } else {
        Ok(false)
    }
}

/// Whether one of the names occurs in an item.
fn any_occurs(
    alloc: Global,
    store: &mut Store,
    state: &State,
    names: &[Name],
) -> Result<bool, AllocError>
    requires state { IsState store.old state.now }
    ensures value { IfOk result (λ b. b ≡ lists.in_items names.now (items_of store.old state.now)) }
    ensures extends { Extends store.old store.new }
{
    for name in names {
        if occurs(alloc, store, state, name)? {
            return Ok(true);
        }
    }
    Ok(false)
}

/// Whether a name occurs in an item.
fn occurs(alloc: Global, store: &mut Store, state: &State, name: &Name) -> Result<bool, AllocError>
    requires state { IsState store.old state.now }
    ensures value { IfOk result (λ b. b ≡ lists.in_items (name.now ∷ []) (items_of store.old state.now)) }
    ensures extends { Extends store.old store.new }
{
    let plain = var(alloc, store, name, Sort::Bool)?;
    let int = var(alloc, store, name, Sort::Int)?;
    store.is_distinct();
    let found = is_either_seen(&state.seen, plain, int);
    Ok(found)
}

/// Whether one of two terms is seen.
fn is_either_seen(seen: &Seen, a: TermId, b: TermId) -> bool
    ensures { result ≡ (list_any (same_id a) seen.now || list_any (same_id b) seen.now) }
{
    is_seen(seen, a) || is_seen(seen, b)
}

/// Whether a term is seen.
fn is_seen(seen: &Seen, id: TermId) -> bool
    ensures { result ≡ list_any (same_id id) seen.now }
{
    seen.has(id)
}

/// The term of a name with this text and that sort.
fn var(alloc: Global, store: &mut Store, name: &Name, sort: Sort) -> Result<TermId, AllocError>
    ensures shows { IfOk result (λ id. Shows store.new id (Var (with_sort name.now sort))) }
    ensures extends { Extends store.old store.new }
{
    let id = store.intern(Term::Var(Name::new(alloc, name.text(), sort)?))?;
    Ok(id)
}

/// Whether a name that is in no item occurs in the term, by its bytes.
///
/// What the items are made of is not gone into: the cost is in proportion to the term's distinct subterms that are in no item.
pub fn occurs_in(
    alloc: Global,
    store: &Store,
    state: &State,
    name: &Name,
    id: TermId,
) -> Result<bool, AllocError>
    requires state { IsState store.now state.now }
    requires apart { lists.in_items (name.now ∷ []) (items_of store.now state.now) ≡ false }
    requires has { Has store.now id }
    ensures { IfOk result (λ b. b ≡ texts.in_tree (name.now ∷ []) (tree_at store.now id)) }
{
    let found = occurs_below(alloc, store, &state.seen, name, id)?;
    Ok(found)
}
