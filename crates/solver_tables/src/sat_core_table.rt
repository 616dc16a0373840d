//! Searches over small sets of clauses, without a limit, with one, and with a watch that refuses a lemma.
ghost use Rattle.std.specs.Prelude.{◌≡◌};

use crate::literals::clauses;
use rup::{Clause, Lit, rup};
use sat_core::{RupLine, Solved, Solver, Watch, are_below};
use std::alloc::{AllocError, Global};
use std::process::Abort;
use std::test::Fail;

/// A watch that counts the lemmas, and refuses one of them.
#[derive(Drop)]
struct Counter {
    seen: u64,
    refused: u64,
}

impl Watch for Counter {
    ghost says = { λ before c goes_on after. after.refused ≡ before.refused };

    fn on_lemma(&mut self, _clause: &Clause) -> bool {
        self.seen = self.seen.saturating_add(1);
        self.seen != self.refused
    }
}

/// The four clauses over two names.
const FOUR: [i32; 12] = [1, 2, 0, 1, -2, 0, -1, 2, 0, -1, -2, 0];

/// Four pigeons in three holes: pigeon p, from 0, sits in hole h, from 1, where variable 3 p + h is true.
const PIGEONS: [i32; 70] = [
    1, 2, 3, 0, 4, 5, 6, 0, 7, 8, 9, 0, 10, 11, 12, 0, // each sits somewhere
    -1, -4, 0, -1, -7, 0, -1, -10, 0, -4, -7, 0, -4, -10, 0, -7, -10, 0, // no two in hole 1
    -2, -5, 0, -2, -8, 0, -2, -11, 0, -5, -8, 0, -5, -11, 0, -8, -11, 0, // no two in hole 2
    -3, -6, 0, -3, -9, 0, -3, -12, 0, -6, -9, 0, -6, -12, 0, -9, -12, 0, // no two in hole 3
];

/// How a search ends, and how many lemmas it learns: at most that many where it finds a model or refutes, and else exactly.
#[derive(Clone, Copy, Debug, PartialEq, Eq)]
enum Ends {
    Found(u64),
    Refuted(u64),
    Spent(u64),
    Halted(u64),
}

/// How a search ends, with the number of the lemmas that the watch saw. A model and each line are checked.
fn outcome(
    rt: &impl Abort,
    alloc: Global,
    vars: u32,
    given: &[i32],
    limit: Option<u64>,
    refused: u64,
) -> Result<Ends, AllocError> {
    let known = clauses(alloc, given)?;
    let taken = clauses(alloc, given)?;
    assert!(rt; are_below(vars, taken.as_slice()));
    let solver = Solver::new(vars, taken)?;
    let mut counter = Counter { seen: 0, refused };
    let solved = solver.solve(alloc, limit, &mut counter)?;
    let seen = counter.seen;
    match solved {
        Solved::Found(values) => {
            assert_eq!(rt; values.len(), vars as usize);
            assert!(rt; known.iter().all(|c| is_true(values.as_slice(), c.lits())));
            Ok(Ends::Found(seen))
        }
        Solved::Refuted(lines) => {
            assert_eq!(rt; lines.len() as u64, seen.saturating_add(1));
            replay(rt, alloc, known, lines.as_slice())?;
            Ok(Ends::Refuted(seen))
        }
        Solved::Spent(lines) => {
            assert_eq!(rt; lines.len() as u64, seen);
            replay(rt, alloc, known, lines.as_slice())?;
            Ok(Ends::Spent(seen))
        }
        Solved::Halted(lines) => {
            assert_eq!(rt; lines.len() as u64, seen);
            replay(rt, alloc, known, lines.as_slice())?;
            Ok(Ends::Halted(seen))
        }
    }
}

fn is_true(values: &[bool], lits: &[Lit]) -> bool {
    lits.iter().any(|l| values.get(l.var as usize).copied() == Some(l.positive))
}

/// Asserts that each line follows by its hints.
fn replay(
    rt: &impl Abort,
    alloc: Global,
    given: Vec<Clause>,
    lines: &[RupLine],
) -> Result<(), AllocError> {
    let mut known = given;
    for line in lines {
        let yes = rup(
            alloc,
            known.as_slice(),
            line.clause.lits(),
            line.hints.as_slice(),
        )?;
        assert!(rt; yes);
        known.push(line.clause.copy(alloc)?)?;
    }
    Ok(())
}

/// Whether a search ended as is wanted, after no more lemmas than are wanted.
fn is_as_wanted(got: Ends, want: Ends) -> bool {
    match (got, want) {
        (Ends::Found(lemmas), Ends::Found(most)) => lemmas <= most,
        (Ends::Refuted(lemmas), Ends::Refuted(most)) => lemmas <= most,
        _ => got == want,
    }
}

#[test]
fn searches(rt: HostRuntime) -> Result<(), Fail> {
    let alloc = rt.alloc();
    let four = FOUR.as_slice();
    let pigeons = PIGEONS.as_slice();
    let rows: [(&str, u32, &[i32], Option<u64>, u64, Ends); 15] = [
        ("nothing", 0, &[], None, 0, Ends::Found(0)),
        ("no clauses", 3, &[], None, 0, Ends::Found(0)),
        ("an empty clause", 1, &[0], None, 0, Ends::Refuted(0)),
        ("units", 3, &[1, 0, -2, 0], None, 0, Ends::Found(0)),
        (
            "opposite units",
            2,
            &[1, 0, -1, 0],
            None,
            0,
            Ends::Refuted(0),
        ),
        (
            "a chain",
            5,
            &[1, 0, -1, 2, 0, -2, 3, 0, -3, 4, 0],
            None,
            0,
            Ends::Found(0),
        ),
        (
            "a tautology",
            3,
            &[1, -1, 0, 2, 2, 0, 1, 0],
            None,
            0,
            Ends::Found(0),
        ),
        ("four clauses", 3, four, None, 0, Ends::Refuted(8)),
        (
            "four clauses, limit 9",
            3,
            four,
            Some(9),
            0,
            Ends::Refuted(8),
        ),
        ("pigeons", 13, pigeons, None, 0, Ends::Refuted(100)),
        ("pigeons, limit 0", 13, pigeons, Some(0), 0, Ends::Spent(1)),
        ("pigeons, limit 3", 13, pigeons, Some(3), 0, Ends::Spent(4)),
        (
            "pigeons, limit 3, halted",
            13,
            pigeons,
            Some(3),
            2,
            Ends::Halted(2),
        ),
        (
            "pigeons, both at once",
            13,
            pigeons,
            Some(1),
            2,
            Ends::Halted(2),
        ),
        (
            "pigeons, halted too late",
            13,
            pigeons,
            Some(1),
            3,
            Ends::Spent(2),
        ),
    ];
    for (name, vars, given, limit, refused, want) in rows {
        let got = outcome(&rt, alloc, vars, given, limit, refused)?;
        assert!(rt; is_as_wanted(got, want), "{name}: {got:?}");
    }
    Ok(())
}
