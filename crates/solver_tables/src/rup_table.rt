//! Reverse unit propagation over the four clauses on two names, and the calls on literals and values.
use crate::literals::{clauses, lit, lits};
use rup::{
    Clause, Status, Valuation, Values, clause_status, falsified, has, has_pair, item, negate_all,
    rup, same_lit, within,
};
use std::test::Fail;

/// The four clauses over two names, and a clause of one literal twice.
const FOUR: [i32; 15] = [1, 2, 0, 1, -2, 0, -1, 2, 0, -1, -2, 0, 1, 1, 0];

#[test]
fn hints(rt: HostRuntime) -> Result<(), Fail> {
    let alloc = rt.alloc();
    let all = clauses(alloc, FOUR.as_slice())?;
    let rows: [(&[i32], &[u32], bool); 13] = [
        (&[1], &[1, 2], true),
        (&[1], &[2, 1], true),
        (&[1, 1], &[1, 2], true),
        (&[], &[5, 3, 4], true),
        (&[1], &[], false),
        (&[1], &[1], false),
        (&[1], &[1, 2, 3], false),
        (&[1], &[0], false),
        (&[1], &[6], false),
        (&[2], &[2, 1], false),
        (&[], &[1, 2], false),
        (&[1, -1], &[1, 2], false),
        (&[1, 2, -1], &[1], false),
    ];
    for (row, (numbers, hints, follows)) in rows.into_iter().enumerate() {
        let clause = lits(alloc, numbers)?;
        let yes = rup(alloc, all.as_slice(), clause.as_slice(), hints)?;
        assert_eq!(rt; yes, follows, "at row {row}");
    }
    Ok(())
}

#[test]
fn values(rt: HostRuntime) -> Result<(), Fail> {
    let alloc = rt.alloc();
    let clause = Clause::from_vec(lits(alloc, [1, -2].as_slice())?);
    let mut trues = Values::new(alloc);
    let steps: [(i32, Status); 2] = [(-1, Status::Neither), (2, Status::Forces(lit(-2)))];
    for (number, before) in steps {
        assert_eq!(rt; clause_status(&trues, clause.lits()), before);
        let l = lit(number);
        assert!(rt; !trues.has(l.negate()) && !trues.has(l));
        trues.set(l)?;
        assert!(rt; trues.has(l) && has(trues.lits(), l));
    }
    assert_eq!(rt; clause_status(&trues, clause.lits()), Status::Falsified);
    let negated = negate_all(alloc, clause.lits())?;
    assert!(rt; within(negated.as_slice(), trues.lits()) && !has_pair(trues.lits()));
    let under = falsified(alloc, clause.lits())?.ok_or("a tautology")?;
    assert!(rt; within(under.lits(), trues.lits()) && under.lits().len() == 2);
    let copied = clause.copy(alloc)?.into_vec();
    assert!(rt; copied.len() == 2 && same_lit(copied[1], lit(-2)));
    Ok(())
}

#[test]
fn numbers(rt: HostRuntime) -> Result<(), Fail> {
    let all = clauses(rt.alloc(), FOUR.as_slice())?;
    for (number, first) in [(0, None), (1, Some(lit(1))), (3, Some(lit(-1))), (6, None)] {
        let found = item(all.as_slice(), number).and_then(|c| c.lits().first().copied());
        assert_eq!(rt; found, first, "at the number {number}");
    }
    Ok(())
}
