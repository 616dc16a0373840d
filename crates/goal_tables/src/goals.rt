//! Goals: bounds that stand in them, which of them are decided, and precisions.
ghost use Rattle.std.specs.Prelude.{◌↔◌, All, IsTrue};
ghost use Rattle.qterm.specs.declared.name.Sort.TheVariants.{Bool};
ghost use Rattle.qterm.specs.Store.{HasSort};

use qgoal::{Decided, Goal, Precision, low, up};
use qterm::{Name, Sort, Store, Term, TermId, TermIds};
use std::alloc::{AllocError, Global};
use std::test::Fail;

/// The id of a term, if its children are terms of the store.
fn put(store: &mut Store, term: Term) -> Result<TermId, AllocError> {
    if store.fits(&term) {
        store.intern(term)
    } else {
        Err(AllocError)
    }
}

/// The formulas `x <= 7`, `(- x) <= 3`, `x <= 5`, `(- x) <= -2^127` and `false`, in this order.
fn formulas(alloc: Global, store: &mut Store) -> Result<[TermId; 5], AllocError> {
    let name = Name::new(alloc, b"x", Sort::Int)?;
    let x = put(store, Term::Var(name))?;
    let minus = put(store, Term::Scale(-1, x))?;
    let seven = put(store, Term::Num(7))?;
    let three = put(store, Term::Num(3))?;
    let five = put(store, Term::Num(5))?;
    let least = put(store, Term::Num(i128::MIN))?;
    let wide = put(store, Term::Le(x, seven))?;
    let low = put(store, Term::Le(minus, three))?;
    let tight = put(store, Term::Le(x, five))?;
    let outside = put(store, Term::Le(minus, least))?;
    let none = put(store, Term::False)?;
    Ok([wide, low, tight, outside, none])
}

/// Whether these are formulas of the store.
fn are_in(store: &Store, ids: &[TermId]) -> bool
    ensures { IsTrue result ↔ All (HasSort Bool store.now) ids.now }
{
    ids.iter()
        .all(|id| store.has(*id) && store.sort(*id) == Sort::Bool)
}

/// Whether a goal of these formulas has the bounds, and is decided as they say where it is precise.
fn is_right(
    alloc: Global,
    store: &Store,
    formulas: &[TermId],
    bounds: (Option<i128>, Option<i128>),
    decided: Decided,
) -> Result<bool, AllocError> {
    if !are_in(store, formulas) {
        return Ok(false);
    }
    let goal = Goal {
        formulas: TermIds::from_vec(Vec::from_slice(alloc, formulas)?),
        precision: Precision::Precise,
    };
    let name = Name::new(alloc, b"x", Sort::Int)?;
    Ok(
        low(store, &goal, &name) == bounds.0
            && up(store, &goal, &name) == bounds.1
            && goal.decided(store) == decided,
    )
}

#[test]
fn bounds_and_decided_goals(rt: HostRuntime) -> Result<(), Fail> {
    let alloc = rt.alloc();
    let mut store = Store::new(alloc);
    let [wide, least, tight, outside, none] = formulas(alloc, &mut store)?;
    let rows: [(&[TermId], (Option<i128>, Option<i128>), Decided); 5] = [
        (&[], (None, None), Decided::Sat),
        (&[wide, tight], (None, Some(5)), Decided::Undecided),
        (
            &[tight, least, wide],
            (Some(-3), Some(5)),
            Decided::Undecided,
        ),
        (&[outside], (None, None), Decided::Undecided),
        (&[wide, none], (None, Some(7)), Decided::Unsat),
    ];
    for (list, bounds, decided) in rows {
        assert!(rt; is_right(alloc, &store, list, bounds, decided)?);
    }
    Ok(())
}

#[test]
fn precisions(rt: HostRuntime) -> Result<(), Fail> {
    let rows = [
        (Precision::Precise, Precision::Under, Precision::Under),
        (Precision::Over, Precision::Precise, Precision::Over),
        (Precision::Under, Precision::Under, Precision::Under),
        (Precision::Under, Precision::Over, Precision::Neither),
    ];
    for (one, other, both) in rows {
        assert!(rt; one.join(other) == both);
    }
    assert!(rt; Precision::Under.is_up() && !Precision::Under.is_down());
    Ok(())
}
