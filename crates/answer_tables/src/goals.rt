//! Rows of `answer_text` over a store: terms and goals.
ghost use Rattle.std.specs.Prelude.{◌↔◌, IsTrue, All};
ghost use Rattle.qterm.specs.declared.name.Sort.TheVariants as sort;
ghost use Rattle.qterm.specs.Store.{Extends, HasSort};
ghost use Rattle.qgoal.specs.Goal.{HasGoal};

use answer_text::{write_goals, write_term};
use qgoal::{Goal, Precision};
use qterm::{Sort, Store, Term, TermId};
use std::alloc::{AllocError, Global};
use std::test::Fail;
use table_terms::{Plain, list, put, put_and, put_name, put_or, put_sum};

/// The text of a term of the store.
fn term_of(alloc: Global, store: &Store, id: TermId) -> Result<Vec<u8>, AllocError> {
    if store.has(id) {
        write_term(alloc, store, id)
    } else {
        Err(AllocError)
    }
}

/// Whether a formula is one of the store.
fn is_formula(store: &Store, id: TermId) -> bool
    ensures { IsTrue result ↔ HasSort sort.Bool store.now id }
{
    store.has(id) && store.sort(id) == Sort::Bool
}

/// Whether the formulas of a goal are formulas of the store.
fn has_goal(store: &Store, goal: &Goal) -> bool
    ensures { IsTrue result ↔ HasGoal store.now goal.now }
{
    goal.formulas
        .as_slice()
        .iter()
        .all(|id| is_formula(store, *id))
}

/// Whether those of all goals are.
fn has_goals(store: &Store, goals: &[Goal]) -> bool
    ensures { IsTrue result ↔ All (HasGoal store.now) goals.now }
{
    goals.iter().all(|goal| has_goal(store, goal))
}

/// The text of goals of the store.
fn goals_of(alloc: Global, store: &Store, goals: &[Goal]) -> Result<Vec<u8>, AllocError> {
    if has_goals(store, goals) {
        write_goals(alloc, store, goals)
    } else {
        Err(AllocError)
    }
}

/// The names p and `let` of sort Bool, and x and `a b` of sort Int.
fn names(alloc: Global, store: &mut Store) -> Result<[TermId; 4], AllocError> {
    Ok([
        put_name(alloc, store, b"p", Sort::Bool)?,
        put_name(alloc, store, b"let", Sort::Bool)?,
        put_name(alloc, store, b"x", Sort::Int)?,
        put_name(alloc, store, b"a b", Sort::Int)?,
    ])
}

/// The texts of a sum over the first Int names, and of a conjunction and a disjunction over the first Bool names.
const ROWS: [(usize, [&[u8]; 3]); 3] = [
    (0, [b"0", b"true", b"false"]),
    (1, [b"(+ x)", b"(and p)", b"(or p)"]),
    (2, [b"(+ x |a b|)", b"(and p |let|)", b"(or p |let|)"]),
];

/// Whether the first names have these texts.
fn are_written(
    alloc: Global,
    store: &mut Store,
    bools: &[TermId],
    ints: &[TermId],
    want: [&[u8]; 3],
) -> Result<bool, AllocError> {
    let ids = [
        put_sum(alloc, store, ints)?,
        put_and(alloc, store, bools)?,
        put_or(alloc, store, bools)?,
    ];
    for at in 0..3 {
        if term_of(alloc, store, ids[at])?.as_slice() != want[at] {
            return Ok(false);
        }
    }
    Ok(true)
}

#[test]
fn terms(rt: HostRuntime) -> Result<(), Fail> {
    let alloc = rt.alloc();
    let mut store = Store::new(alloc);
    let [p, q, x, y] = names(alloc, &mut store)?;
    for (len, want) in ROWS {
        assert!(rt; are_written(alloc, &mut store, &[p, q][..len], &[x, y][..len], want)?);
    }
    let turned = put(&mut store, Term::Scale(-1, x))?;
    let rows: [(Plain, &[u8]); 17] = [
        (Plain::True, b"true"),
        (Plain::False, b"false"),
        (Plain::Num(0), b"0"),
        (Plain::Num(-5), b"(- 5)"),
        (
            Plain::Num(i128::MAX),
            b"170141183460469231731687303715884105727",
        ),
        (
            Plain::Num(i128::MIN),
            b"(- 170141183460469231731687303715884105728)",
        ),
        (Plain::Scale(-1, turned), b"(- (- x))"),
        (Plain::Scale(1, x), b"(* 1 x)"),
        (Plain::Scale(0, y), b"(* 0 |a b|)"),
        (Plain::Scale(-3, turned), b"(* (- 3) (- x))"),
        (Plain::Le(turned, y), b"(<= (- x) |a b|)"),
        (Plain::Eq(y, x), b"(= |a b| x)"),
        (Plain::Iff(p, q), b"(= p |let|)"),
        (Plain::Iff(q, p), b"(= |let| p)"),
        (Plain::Not(q), b"(not |let|)"),
        (Plain::Ite(p, x, turned), b"(ite p x (- x))"),
        (Plain::Ite(q, p, q), b"(ite |let| p |let|)"),
    ];
    for (plain, want) in rows {
        let id = put(&mut store, plain.term())?;
        assert!(rt; term_of(alloc, &store, id)?.as_slice() == want);
    }
    Ok(())
}

/// The formula `x <= 2`, and formulas over p whose trees have 1,048,576 and 1,048,577 nodes.
fn formulas(alloc: Global, store: &mut Store) -> Result<[TermId; 3], AllocError> {
    let [p, _, x, _] = names(alloc, store)?;
    let two = put(store, Term::Num(2))?;
    let less = put(store, Term::Le(x, two))?;
    let mut below = p;
    for _ in 0..19 {
        below = put_and(alloc, store, &[below, below])?;
    }
    let most = put(store, Term::Not(below))?;
    let large = put(store, Term::Not(most))?;
    Ok([less, most, large])
}

/// A goal of these formulas.
fn goal(alloc: Global, formulas: &[TermId], precision: Precision) -> Result<Goal, AllocError> {
    Ok(Goal {
        formulas: list(alloc, formulas)?,
        precision,
    })
}

const SHOWN: &[u8] = b"(goals
(goal precise
  (<= x 2)
)
(goal under
)
(goal over
  (large)
  (<= x 2)
)
(goal neither
  (large)
)
)
";

#[test]
fn goals_with_and_without_large_formulas(rt: HostRuntime) -> Result<(), Fail> {
    let alloc = rt.alloc();
    let mut store = Store::new(alloc);
    let [less, most, large] = formulas(alloc, &mut store)?;
    let goals = [
        goal(alloc, &[less], Precision::Precise)?,
        goal(alloc, &[], Precision::Under)?,
        goal(alloc, &[large, less], Precision::Over)?,
        goal(alloc, &[large], Precision::Neither)?,
    ];
    assert!(rt; goals_of(alloc, &store, &goals)?.as_slice() == SHOWN);
    assert!(rt; goals_of(alloc, &store, &[])?.as_slice() == b"(goals\n)\n".as_slice());
    let whole = [goal(alloc, &[most], Precision::Precise)?];
    let text = goals_of(alloc, &store, &whole)?;
    assert!(rt; text.starts_with(b"(goals\n(goal precise\n  (not (and (and "));
    assert!(rt; text.len() == 4194331);
    Ok(())
}
