//! The steps that define the fresh names, with a table of what each shifted name is replaced by.
ghost use Rattle.std.specs.Prelude.{◌≡◌, ℕ, IfOk, OnOk, Some, None, true, cond, nat_eq};
ghost use Rattle.std.specs.HashMap.{get};
ghost use Rattle.qterm.specs.declared.name.Sort.TheVariants.{Int};
ghost use Rattle.qterm.specs.Tree.{Var, Num, Sum, none, more};
ghost use Rattle.qterm.specs.Store.{Shows, Extends};
ghost use Rattle.qwalk.specs.Walk.{same_id};
ghost use Rattle.qlin.specs.Number.{in_range};
ghost use Rattle.shift_lists.specs.Shifts.{AreInt};
ghost use Rattle.shift_steps.specs.Defining.{AreNarrow, first_of, Defines, AllDefined};

use crate::trace::Trace;
use qterm::{Name, Store, Term, TermId, TermIds};
use shift_lists::Shift;
use std::alloc::{AllocError, Global};
use std::collections::HashMap;
use tac_cert::Step;

/// What a name is replaced by: the term, and the number of the item that says that the two are equal.
#[derive(Clone, Copy)]
pub(crate) struct Turn {
    pub equation: u32,
    pub term: TermId,
}

/// Defines the fresh names of the shifts, in order. The table has what each shifted name is replaced by.
pub(crate) fn define_all(
    alloc: Global,
    store: &mut Store,
    trace: &mut Trace,
    shifts: &[Shift],
) -> Result<HashMap<TermId, Turn>, AllocError>
    requires ints { AreInt shifts.now }
    requires narrow { AreNarrow shifts.now }
    ensures defined { IfOk result (λ turns. AllDefined store.old store.new trace.old trace.new (get same_id turns) shifts.now) }
    ensures extends { Extends store.old store.new }
{
    let mut turns = HashMap::new(alloc);
    for shift in shifts {
        define(alloc, store, trace, shift, &mut turns)?;
    }
    Ok(turns)
}

/// Defines the fresh name of a shift, and puts what its name is replaced by into the table.
fn define(
    alloc: Global,
    store: &mut Store,
    trace: &mut Trace,
    shift: &Shift,
    turns: &mut HashMap<TermId, Turn>,
) -> Result<(), AllocError>
    requires int { shift.now.name.sort ≡ Int }
    requires fresh_int { shift.now.fresh.sort ≡ Int }
    requires narrow { in_range shift.now.by ≡ true }
    ensures defines { OnOk result (Defines store.new trace.old trace.new (get same_id turns.old) (get same_id turns.new) shift.now) }
    ensures extends { Extends store.old store.new }
{
    let by = shift.by;
    let off = -by;
    let key = store.intern(Term::Var(shift.name.clone()?))?;
    let term = plus(alloc, store, &shift.name, &off)?;
    let shifted = plus(alloc, store, &shift.fresh, &by)?;
    store.is_distinct();
    let name = shift.fresh.clone()?;
    let equation = trace.push(Step::Def { name, term })?;
    put(
        turns,
        key,
        Turn {
            equation,
            term: shifted,
        },
    )?;
    Ok(())
}

/// Gives a name what it is replaced by, where it has nothing yet.
fn put(turns: &mut HashMap<TermId, Turn>, id: TermId, turn: Turn) -> Result<(), AllocError>
    ensures { OnOk result ((j : ℕ) → get same_id turns.new j ≡ first_of (get same_id turns.old j) (cond (nat_eq id j) (Some turn) None)) }
{
    if turns.contains_key(&id) {
        return Ok(());
    }
    turns.insert(id, turn)?;
    Ok(())
}

/// An Int name plus a number.
fn plus(alloc: Global, store: &mut Store, name: &Name, by: &i128) -> Result<TermId, AllocError>
    requires int { name.now.sort ≡ Int }
    ensures shows { IfOk result (λ id. Shows store.new id (Sum (more (Var name.now) (more (Num by.now) none)))) }
    ensures extends { Extends store.old store.new }
{
    let number = *by;
    let var = store.intern(Term::Var(name.clone()?))?;
    let constant = store.intern(Term::Num(number))?;
    let mut summands = Vec::with_capacity(alloc, 2)?;
    summands.push(var)?;
    summands.push(constant)?;
    let sum = store.intern(Term::Sum(TermIds::from_vec(summands)))?;
    Ok(sum)
}
