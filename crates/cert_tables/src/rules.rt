//! Certificates, a table for each few rules, with the first line that the check refuses.
ghost use Rattle.std.specs.Prelude.{◌↔◌, All, IsTrue};
ghost use Rattle.qterm.specs.declared.name.Sort.TheVariants.{Bool};
ghost use Rattle.qterm.specs.Store.{HasSort};

use crate::texts::{proof, terms};
use cert_check::{RuleWord, Verdict, check};
use qterm::{Sort, Store, TermId};
use std::alloc::{AllocError, Global};
use std::process::Abort;
use std::test::Fail;
use tac_cert::{Cert, cert_fits};

/// Whether these are formulas of the store.
fn are_formulas(store: &Store, ids: &[TermId]) -> bool
    ensures { IsTrue result ↔ All (HasSort Bool store.now) ids.now }
{
    ids.iter()
        .all(|id| store.has(*id) && store.sort(*id) == Sort::Bool)
}

/// What the check says of a certificate whose terms are there.
pub fn verdict_on(
    alloc: Global,
    store: &mut Store,
    asserts: &[TermId],
    cert: &Cert,
) -> Result<Verdict, AllocError> {
    if cert_fits(store, cert) && are_formulas(store, asserts) {
        check(alloc, store, asserts, cert)
    } else {
        Err(AllocError)
    }
}

/// The terms of a certificate, how many of them are the assertions, its lines, and the first line that is refused.
type Row = (&'static str, u32, &'static str, Option<(u32, RuleWord)>);

/// What the check says of a row.
fn verdict_of(alloc: Global, row: Row) -> Result<Verdict, AllocError> {
    let mut store = Store::new(alloc);
    let ids = terms(alloc, &mut store, row.0)?;
    let cert = Cert::new(1, row.1, proof(alloc, ids.as_slice(), row.2)?);
    let asserts = ids.as_slice().get(..row.1 as usize).ok_or(AllocError)?;
    verdict_on(alloc, &mut store, asserts, &cert)
}

/// What the check is to say of a row.
fn wanted(row: Row) -> Verdict {
    match row.3 {
        None => Verdict::Accepted,
        Some((step, rule)) => Verdict::Refused { step, rule },
    }
}

/// Asserts that the check says of each row what it is to say.
fn run(rt: &impl Abort, alloc: Global, rows: &[Row]) -> Result<(), AllocError> {
    for row in rows {
        let found = verdict_of(alloc, *row)?;
        assert_eq!(rt; found, wanted(*row), "{} {}", row.0, row.2);
    }
    Ok(())
}

/// `false`, `keep` and `split`.
const CLOSING: [Row; 26] = [
    ("p  false", 2, "false 2", None),
    ("p  false", 2, "false 1", Some((1, RuleWord::False))),
    ("p  false", 2, "false 0", Some((1, RuleWord::False))),
    ("p  false", 2, "false 3", Some((1, RuleWord::False))),
    ("|0  true !", 2, "false 1", Some((1, RuleWord::False))),
    ("|0  true !", 2, "false 2", Some((1, RuleWord::False))),
    ("p  false  q", 3, "keep 2; false 1", None),
    ("p  false  q", 3, "keep 3 2 2; false 3", None),
    ("p  false  q", 3, "keep 3 2; keep 2; false 1", None),
    (
        "p  false  q",
        3,
        "keep 3 2; keep 3; false 1",
        Some((2, RuleWord::Keep)),
    ),
    (
        "p  false  q",
        3,
        "keep 0; false 1",
        Some((1, RuleWord::Keep)),
    ),
    (
        "p  false  q",
        3,
        "keep 4; false 1",
        Some((1, RuleWord::Keep)),
    ),
    (
        "p  false  q",
        3,
        "keep; false 2",
        Some((2, RuleWord::False)),
    ),
    ("p  false  q", 3, "keep 2; def p #3; false 1", None),
    (
        "false p |2  p !  false",
        2,
        "split 1 2; false 3; rup #3 3 2; false 4",
        None,
    ),
    (
        "false p |2  p !  false",
        2,
        "split 1 2; false 3; false 3",
        Some((3, RuleWord::False)),
    ),
    (
        "false p |2  p !",
        2,
        "split 1 1; false 3",
        Some((1, RuleWord::Split)),
    ),
    (
        "false p |2  p !",
        2,
        "split 1 3; false 3; false 3; false 3",
        Some((1, RuleWord::Split)),
    ),
    (
        "false p |2  p !",
        2,
        "split 2 1; false 3",
        Some((1, RuleWord::Split)),
    ),
    (
        "false p |2  p !",
        2,
        "split 0 1; false 3",
        Some((1, RuleWord::Split)),
    ),
    ("|0  p", 2, "split 1 0", Some((1, RuleWord::Split))),
    (
        "false  p q |2",
        2,
        "split 2 2; rw 3 #1; false 1; false 1",
        Some((2, RuleWord::Rw)),
    ),
    // what a case puts behind the items is gone in the next, and what a case kept stays
    (
        "false  p q |2",
        2,
        "split 2 2; def r #1; false 1; false 4",
        Some((4, RuleWord::False)),
    ),
    (
        "false  p q |2",
        2,
        "split 2 2; def r #1; false 1; def r #2; false 1",
        None,
    ),
    (
        "false  p q |2",
        2,
        "split 2 2; keep 1; def q #1; false 1; false 1",
        None,
    ),
    (
        "false  p q |2",
        2,
        "split 2 2; keep 1; def q #1; false 1; def q #1; false 1",
        Some((5, RuleWord::Def)),
    ),
];

/// `rw` and `and`.
const REWRITTEN: [Row; 16] = [
    ("false  p q &2  q p &2", 2, "rw 2 #3; false 1", None),
    ("|0  false", 1, "rw 1 #2; false 2", None),
    ("false  X 2 <  3 X < !", 2, "rw 2 #3; false 1", None),
    (
        "false  X 2 <  2 X < !",
        2,
        "rw 2 #3; false 1",
        Some((1, RuleWord::Rw)),
    ),
    (
        "false  p  p q |2",
        2,
        "rw 2 #3; false 1",
        Some((1, RuleWord::Rw)),
    ),
    ("false  p", 2, "rw 0 #2; false 1", Some((1, RuleWord::Rw))),
    ("false  p", 2, "rw 3 #2; false 1", Some((1, RuleWord::Rw))),
    (
        "false  p  X",
        2,
        "rw 2 #3; false 1",
        Some((1, RuleWord::Rw)),
    ),
    // without a canonical form even the item itself is refused
    (
        "false  X 170141183460469231731687303715884105727 < !",
        2,
        "rw 2 #2; false 1",
        Some((1, RuleWord::Rw)),
    ),
    (
        "false  X 1 <  -1 X * 0 <",
        3,
        "bit X p; rw 4 #1; false 1",
        Some((2, RuleWord::Rw)),
    ),
    ("p false &2", 1, "and 1 2; false 2", None),
    (
        "p false &2",
        1,
        "and 1 1; false 2",
        Some((2, RuleWord::False)),
    ),
    (
        "p false &2",
        1,
        "and 1 3; false 2",
        Some((1, RuleWord::And)),
    ),
    (
        "p false &2",
        1,
        "and 1 0; false 2",
        Some((1, RuleWord::And)),
    ),
    (
        "p false |2",
        1,
        "and 1 2; false 2",
        Some((1, RuleWord::And)),
    ),
    (
        "p false &2",
        1,
        "and 2 2; false 2",
        Some((1, RuleWord::And)),
    ),
];

/// `def`, `subst` and `ite`.
const NAMED: [Row; 28] = [
    (
        "false  p q &2  r p q &2 ~",
        2,
        "def r #2; rw 3 #3; false 1",
        None,
    ),
    (
        "false  X 1 +2  Y X 1 +2 =",
        1,
        "def Y #2; rw 2 #3; false 1",
        None,
    ),
    ("false  p", 2, "def p #1; false 1", Some((1, RuleWord::Def))),
    (
        "false  P 0 <",
        2,
        "def :P #1; false 1",
        Some((1, RuleWord::Def)),
    ),
    (
        "false  p q &2",
        1,
        "def q #2; false 1",
        Some((1, RuleWord::Def)),
    ),
    (
        "false  X 1 <",
        1,
        "def :X #2; false 1",
        Some((1, RuleWord::Def)),
    ),
    ("false  X", 1, "def p #2; false 1", Some((1, RuleWord::Def))),
    ("false  p", 1, "def P #2; false 1", Some((1, RuleWord::Def))),
    (
        "false  true",
        1,
        "def p #2; def p #2; false 1",
        Some((2, RuleWord::Def)),
    ),
    (
        "false  X 1 <  -1 X * 0 <",
        3,
        "bit X p; def p #1; false 1",
        Some((2, RuleWord::Def)),
    ),
    (
        "p  p !  true  false",
        2,
        "def p #3; rup #4 1 2; false 4",
        Some((1, RuleWord::Def)),
    ),
    (
        "false  X Y =  X 3 <  X  Y  Y 3 <",
        3,
        "subst 2 #4 #5 3; rw 4 #6; false 1",
        None,
    ),
    (
        "false  X Y =  X 3 <  X  Y",
        3,
        "subst 2 #5 #4 3; rw 4 #3; false 1",
        None,
    ),
    (
        "false  X Y =  X 3 <  X  Y  Y 3 <",
        3,
        "subst 2 #5 #4 3; rw 4 #6; false 1",
        Some((2, RuleWord::Rw)),
    ),
    // what stands in the place of a term isn't gone over again
    (
        "false  p p q &2 ~  p r |2  p  p q &2  p q &2 r |2",
        3,
        "subst 2 #4 #5 3; rw 4 #6; false 1",
        None,
    ),
    (
        "false  X Y =  X 3 <  X",
        3,
        "subst 2 #4 #4 3; false 1",
        Some((1, RuleWord::Subst)),
    ),
    (
        "false  X Y =  X 3 <  X  1",
        3,
        "subst 2 #4 #5 3; false 1",
        Some((1, RuleWord::Subst)),
    ),
    (
        "false  X Y =  X 3 <  X  p",
        3,
        "subst 2 #4 #5 3; false 1",
        Some((1, RuleWord::Subst)),
    ),
    (
        "false  X Y =  X 3 <  X  Y",
        3,
        "subst 4 #4 #5 3; false 1",
        Some((1, RuleWord::Subst)),
    ),
    (
        "false  X Y =  X 3 <  X  Y",
        3,
        "subst 2 #4 #5 4; false 1",
        Some((1, RuleWord::Subst)),
    ),
    (
        "false  X p 1 2 ? =  p ! X 1 = |2  p X 2 = |2",
        2,
        "ite 2; rw 3 #3; rw 4 #4; false 1",
        None,
    ),
    (
        "false  X p 1 2 ? =  p X 1 = |2",
        2,
        "ite 2; rw 3 #3; false 1",
        Some((2, RuleWord::Rw)),
    ),
    (
        "false  X p 1 2 ? =  p ! X 2 = |2",
        2,
        "ite 2; rw 4 #3; false 1",
        Some((2, RuleWord::Rw)),
    ),
    (
        "false  p 1 2 ? X =",
        2,
        "ite 2; false 1",
        Some((1, RuleWord::Ite)),
    ),
    (
        "false  q p q p ? ~",
        2,
        "ite 2; false 1",
        Some((1, RuleWord::Ite)),
    ),
    (
        "false  X 1 =",
        2,
        "ite 2; false 1",
        Some((1, RuleWord::Ite)),
    ),
    (
        "false  X 1 +2 p 1 2 ? =",
        2,
        "ite 2; false 1",
        Some((1, RuleWord::Ite)),
    ),
    (
        "false  X 1 =",
        2,
        "ite 3; false 1",
        Some((1, RuleWord::Ite)),
    ),
];

/// `table` and `rup`. The first rows of `rup` are for the assertions `p` and `(not p)`.
const CLAUSES: [Row; 35] = [
    ("false  p q ~  p q ! |2", 2, "table 2 #3; false 1", None),
    ("p p ! &2  false", 1, "table 1 #2; false 2", None),
    ("false  p  p p ! |2", 2, "table 2 #3; false 1", None),
    ("false  p q r s t &5  t", 2, "table 2 #3; false 1", None),
    (
        "false  p q r s t u &6  t",
        2,
        "table 2 #3; false 1",
        Some((1, RuleWord::Table)),
    ),
    // the clause is false in the first row alone, in one between, and in the last alone
    (
        "false  p q ~  p q |2",
        2,
        "table 2 #3; false 1",
        Some((1, RuleWord::Table)),
    ),
    (
        "false  p q |2  p",
        2,
        "table 2 #3; false 1",
        Some((1, RuleWord::Table)),
    ),
    (
        "false  p q ~  p ! q ! |2",
        2,
        "table 2 #3; false 1",
        Some((1, RuleWord::Table)),
    ),
    (
        "false  p q ~  p q ! r |3",
        2,
        "table 2 #3; false 1",
        Some((1, RuleWord::Table)),
    ),
    (
        "false  p X 0 < &2  p",
        2,
        "table 2 #3; false 1",
        Some((1, RuleWord::Table)),
    ),
    (
        "false  p q &2",
        2,
        "table 2 #2; false 1",
        Some((1, RuleWord::Table)),
    ),
    (
        "false  p",
        2,
        "table 3 #2; false 1",
        Some((1, RuleWord::Table)),
    ),
    ("p  p !  false", 2, "rup #3 1 2; false 3", None),
    ("p  p !  false", 2, "rup #3 2 1; false 3", None),
    (
        "p  p !  false",
        2,
        "rup #3 1; false 3",
        Some((1, RuleWord::Rup)),
    ),
    (
        "p  p !  false",
        2,
        "rup #3 1 2; false 2",
        Some((2, RuleWord::False)),
    ),
    (
        "p  p !  false",
        2,
        "rup #3; false 3",
        Some((1, RuleWord::Rup)),
    ),
    (
        "p  p !  false",
        2,
        "rup #3 1 3; false 3",
        Some((1, RuleWord::Rup)),
    ),
    (
        "p  p !  false",
        2,
        "rup #3 0 2; false 3",
        Some((1, RuleWord::Rup)),
    ),
    ("false  p q |2  p q ! |2  p", 3, "rup #4 2 3; false 1", None),
    ("false  p q |2  p q ! |2  p", 3, "rup #4 1; false 1", None),
    (
        "false  p q |2  p q ! |2  p",
        3,
        "rup #4 1 2 3; false 1",
        Some((1, RuleWord::Rup)),
    ),
    (
        "false  p q |2  p q ! |2  p",
        3,
        "rup #4 2; false 1",
        Some((1, RuleWord::Rup)),
    ),
    (
        "false  p q r |3  p",
        2,
        "rup #3 2; false 1",
        Some((1, RuleWord::Rup)),
    ),
    (
        "false  p !  p",
        2,
        "rup #3 2 1; false 1",
        Some((1, RuleWord::Rup)),
    ),
    // literals as a set
    ("false  p p |2  p", 2, "rup #3 2; false 1", None),
    ("false  q q |2  q ! p |2  p", 3, "rup #4 2 3; false 1", None),
    ("false  p q |2  q p |2", 2, "rup #3 2; false 1", None),
    ("|0  false", 1, "rup #2 1; false 2", None),
    (
        "|0  false",
        1,
        "rup #1 1; false 2",
        Some((2, RuleWord::False)),
    ),
    (
        "false  p p ! |2",
        1,
        "rup #2 1; false 1",
        Some((1, RuleWord::Rup)),
    ),
    (
        "false  p q &2",
        1,
        "rup #2 1; false 1",
        Some((1, RuleWord::Rup)),
    ),
    (
        "false  p ! !",
        1,
        "rup #2 1; false 1",
        Some((1, RuleWord::Rup)),
    ),
    (
        "false  p q &2  p",
        2,
        "rup #3 2; false 1",
        Some((1, RuleWord::Rup)),
    ),
    (
        "false  p ! ! q |2  p",
        2,
        "rup #3 2 1; false 1",
        Some((1, RuleWord::Rup)),
    ),
];

/// `range` and `bits`.
const BOUNDED: [Row; 26] = [
    (
        "false  X 3 <  -1 X * 2 <  Y 2 X * 1 +2 =  -1 Y * 3 <  Y 7 <",
        4,
        "range 4; rw 5 #5; rw 6 #6; false 1",
        None,
    ),
    (
        "false  X 3 <  -1 X * 2 <  Y -2 X * =  -1 Y * 6 <  Y 4 <",
        4,
        "range 4; rw 5 #5; rw 6 #6; false 1",
        None,
    ),
    (
        "false  X 3 <  -1 X * 2 <  Y -2 X * =  -1 Y * -4 <",
        4,
        "range 4; rw 5 #5; false 1",
        Some((2, RuleWord::Rw)),
    ),
    (
        "false  X 3 <  -1 X * 2 <  Y -2 X * =  Y -6 <",
        4,
        "range 4; rw 6 #5; false 1",
        Some((2, RuleWord::Rw)),
    ),
    (
        "false  X 3 <  X 2 =  Y X =  -1 Y * -2 <  Y 2 <",
        4,
        "range 4; rw 5 #5; rw 6 #6; false 1",
        None,
    ),
    (
        "false  X 3 <  -1 X * 0 <  Y Z 0 < X 10 ? =  -1 Y * 0 <  Y 10 <",
        4,
        "range 4; rw 5 #5; rw 6 #6; false 1",
        None,
    ),
    (
        "false  X 3 <  Y X =",
        3,
        "range 3; false 1",
        Some((1, RuleWord::Range)),
    ),
    (
        "false  X 2 =  2 Y * X =",
        3,
        "range 3; false 1",
        Some((1, RuleWord::Range)),
    ),
    (
        "false  X 2 =",
        2,
        "range 3; false 1",
        Some((1, RuleWord::Range)),
    ),
    (
        "false  X 2 =  Y X <",
        3,
        "range 3; false 1",
        Some((1, RuleWord::Range)),
    ),
    // the ends of all intervals, also of the sums on the way, and the lower end with the other sign have 128 bits
    (
        "false  X 170141183460469231731687303715884105727 =  Y X =",
        3,
        "range 3; false 1",
        None,
    ),
    (
        "false  X 170141183460469231731687303715884105727 =  Y X 1 +2 =",
        3,
        "range 3; false 1",
        Some((1, RuleWord::Range)),
    ),
    (
        "false  X 170141183460469231731687303715884105727 =  Y X 1 -1 +3 =",
        3,
        "range 3; false 1",
        Some((1, RuleWord::Range)),
    ),
    (
        "false  X -170141183460469231731687303715884105728 =  Y X =",
        3,
        "range 3; false 1",
        Some((1, RuleWord::Range)),
    ),
    (
        "false  -1 X * -170141183460469231731687303715884105728 <  X 3 <  Y X =",
        4,
        "range 4; false 1",
        Some((1, RuleWord::Range)),
    ),
    (
        "false  X 3 <  -1 X * 0 <  X B 2 C * +2 =  -1 B * 0 <  C 1 <",
        3,
        "bits X B C; rw 4 #5; rw 7 #6; rw 8 #4; false 1",
        None,
    ),
    ("false  X 0 =  X +0 =", 2, "bits X; rw 3 #3; false 1", None),
    (
        "false  X 4 <  -1 X * 0 <",
        3,
        "bits X B C; false 1",
        Some((1, RuleWord::Bits)),
    ),
    (
        "false  X 3 <  -1 X * 1 <",
        3,
        "bits X B C; false 1",
        Some((1, RuleWord::Bits)),
    ),
    (
        "false  X 3 <",
        2,
        "bits X B C; false 1",
        Some((1, RuleWord::Bits)),
    ),
    (
        "false  -1 X * 0 <",
        2,
        "bits X B C; false 1",
        Some((1, RuleWord::Bits)),
    ),
    (
        "false  X 3 <  -1 X * 0 <",
        3,
        "bits X B B; false 1",
        Some((1, RuleWord::Bits)),
    ),
    (
        "false  X 3 <  -1 X * 0 <",
        3,
        "bits X B X; false 1",
        Some((1, RuleWord::Bits)),
    ),
    (
        "false  X 3 <  -1 X * 0 <",
        3,
        "bits X B c; false 1",
        Some((1, RuleWord::Bits)),
    ),
    (
        "false  :X  X 0 =",
        3,
        "bits :X B C; false 1",
        Some((1, RuleWord::Bits)),
    ),
    (
        "false  X 3 <  -1 X * 0 <",
        3,
        "bits X B C; bits X D C; false 1",
        Some((2, RuleWord::Bits)),
    ),
];

/// `bit`, `mul`, `cmp` and `eqc`, of an `X` from 0 to 1 whose word is item 4.
const WORDS: [Row; 31] = [
    ("false  X 1 <  -1 X * 0 <", 3, "bit X p; false 1", None),
    (
        "false  X 1 <  -1 X * 0 <",
        3,
        "bit X p; false 4",
        Some((2, RuleWord::False)),
    ),
    (
        "false  X 2 <  -1 X * 0 <",
        3,
        "bit X p; false 1",
        Some((1, RuleWord::Bit)),
    ),
    (
        "false  X 1 <  -1 X * 1 <",
        3,
        "bit X p; false 1",
        Some((1, RuleWord::Bit)),
    ),
    (
        "false  X 1 <",
        2,
        "bit X p; false 1",
        Some((1, RuleWord::Bit)),
    ),
    (
        "false  X 1 <  -1 X * 0 <  p",
        4,
        "bit X p; false 1",
        Some((1, RuleWord::Bit)),
    ),
    (
        "false  X 1 <  -1 X * 0 <",
        3,
        "bit X P; false 1",
        Some((1, RuleWord::Bit)),
    ),
    (
        "false  X 1 <  -1 X * 0 <",
        3,
        "bit x p; false 1",
        Some((1, RuleWord::Bit)),
    ),
    (
        "false  X 1 <  -1 X * 0 <",
        3,
        "bit X :X; false 1",
        Some((1, RuleWord::Bit)),
    ),
    (
        "false  X 1 <  -1 X * 0 <  p ! r ! |2  p r |2  p s |2  r ! s |2  p ! r s ! |3  s 3 X * 2 < ~",
        3,
        "bit X p; mul 4 3; cmp 5 2 r s; rw 6 #4; rw 7 #5; rw 8 #6; rw 9 #7; rw 10 #8; rw 11 #9; false 1",
        None,
    ),
    (
        "false  X 1 <  -1 X * 0 <  p r ! |2  p ! r |2  r -1 X * 1 +2 0 < ~",
        3,
        "bit X p; mul 4 -1; cmp 5 0 r; rw 6 #4; rw 7 #5; rw 8 #6; false 1",
        None,
    ),
    (
        "false  X 1 <  -1 X * 0 <  p r ! |2  p ! r |2  r s ! |2  r ! s |2  p t ! |2  s t ! |2  p ! s ! t |3  t 5 X * 5 = ~",
        3,
        "bit X p; mul 4 5; eqc 5 5 r s t; rw 6 #4; rw 7 #5; rw 8 #6; rw 9 #7; rw 10 #8; rw 11 #9; rw 12 #10; rw 13 #11; false 1",
        None,
    ),
    (
        "false  X 1 <  -1 X * 0 <",
        3,
        "bit X p; mul 4 0; false 1",
        Some((2, RuleWord::Mul)),
    ),
    (
        "false  X 1 <  -1 X * 0 <",
        3,
        "bit X p; mul 1 2; false 1",
        Some((2, RuleWord::Mul)),
    ),
    (
        "false  X 1 <  -1 X * 0 <",
        3,
        "bit X p; mul 4 3; mul 5 2; false 1",
        Some((3, RuleWord::Mul)),
    ),
    (
        "false  X 1 <  -1 X * 0 <",
        3,
        "bit X p; mul 4 170141183460469231731687303715884105727; mul 4 -170141183460469231731687303715884105728; false 1",
        Some((3, RuleWord::Mul)),
    ),
    (
        "false  X 1 <  -1 X * 0 <  p ! r ! |2  p r |2  r X 0 < ~",
        3,
        "bit X p; cmp 4 0 r; rw 5 #4; rw 6 #5; rw 7 #6; false 1",
        None,
    ),
    (
        "false  X 1 <  -1 X * 0 <  p r |2  r  r X 1 < ~",
        3,
        "bit X p; cmp 4 1 r; rw 5 #4; rw 6 #5; rw 7 #6; false 1",
        None,
    ),
    (
        "false  X 1 <  -1 X * 0 <  p r ! |2  p ! r |2  r X 1 = ~",
        3,
        "bit X p; eqc 4 1 r; rw 5 #4; rw 6 #5; rw 7 #6; false 1",
        None,
    ),
    (
        "false  X 1 <  -1 X * 0 <  p ! r ! |2  p r |2  r X 0 = ~",
        3,
        "bit X p; eqc 4 0 r; rw 5 #4; rw 6 #5; rw 7 #6; false 1",
        None,
    ),
    (
        "false  X 1 <  -1 X * 0 <  r X 0 = ~",
        3,
        "bit X p; eqc 4 0 r; rw 8 #4; false 1",
        Some((3, RuleWord::Rw)),
    ),
    (
        "false  X 1 <  -1 X * 0 <",
        3,
        "bit X p; cmp 4 2 r; false 1",
        Some((2, RuleWord::Cmp)),
    ),
    (
        "false  X 1 <  -1 X * 0 <",
        3,
        "bit X p; cmp 4 -1 r; false 1",
        Some((2, RuleWord::Cmp)),
    ),
    (
        "false  X 1 <  -1 X * 0 <",
        3,
        "bit X p; cmp 4 1; false 1",
        Some((2, RuleWord::Cmp)),
    ),
    (
        "false  X 1 <  -1 X * 0 <",
        3,
        "bit X p; cmp 4 1 r s; false 1",
        Some((2, RuleWord::Cmp)),
    ),
    (
        "false  X 1 <  -1 X * 0 <",
        3,
        "bit X p; cmp 4 1 p; false 1",
        Some((2, RuleWord::Cmp)),
    ),
    (
        "false  X 1 <  -1 X * 0 <",
        3,
        "bit X p; cmp 4 1 R; false 1",
        Some((2, RuleWord::Cmp)),
    ),
    (
        "false  X 1 <  -1 X * 0 <",
        3,
        "bit X p; cmp 1 1 r; false 1",
        Some((2, RuleWord::Cmp)),
    ),
    (
        "false  X 1 <  -1 X * 0 <",
        3,
        "bit X p; eqc 4 2 r; false 1",
        Some((2, RuleWord::Eqc)),
    ),
    (
        "false  X 1 <  -1 X * 0 <",
        3,
        "bit X p; eqc 4 0 p; false 1",
        Some((2, RuleWord::Eqc)),
    ),
    (
        "false  X 1 <  -1 X * 0 <",
        3,
        "bit X p; mul 4 3; cmp 5 2 r r; false 1",
        Some((3, RuleWord::Cmp)),
    ),
];

/// `add`, of an `X` and a `Y` from 0 to 1 whose words are items 6 and 7.
const SUMS: [Row; 11] = [
    (
        "false  X 1 <  -1 X * 0 <  Y 1 <  -1 Y * 0 <  p q s ! |3  p q ! s |3  p ! q s |3  p ! q ! s ! |3  p ! q ! d |3  p q d ! |3  p d ! |2  q d ! |2",
        5,
        "bit X p; bit Y q; add 6 7 s d; rw 9 #6; rw 10 #7; rw 11 #8; rw 12 #9; rw 13 #10; rw 14 #11; rw 15 #12; rw 16 #13; false 1",
        None,
    ),
    (
        "false  X 1 <  -1 X * 0 <  Y 1 <  -1 Y * 0 <  q d ! |2",
        5,
        "bit X p; bit Y q; add 6 7 s d; rw 17 #6; false 1",
        Some((4, RuleWord::Rw)),
    ),
    (
        "false  X 1 <  -1 X * 0 <  Y 1 <  -1 Y * 0 <  s t ! |2  d ! t ! u |3  u X Y +2 3 = ~",
        5,
        "bit X p; bit Y q; add 6 7 s d; eqc 8 3 t u; rw 17 #6; rw 21 #7; rw 22 #8; false 1",
        None,
    ),
    (
        "false  X 1 <  -1 X * 0 <  Y 1 <  -1 Y * 0 <  p s ! |2  p ! s |2  p d ! |2  d !  q d t ! |3  q d ! t |3  q ! d t |3  q ! d ! t ! |3  q ! d ! e |3  q e ! |2  d e ! |2  q d e ! |3",
        5,
        "bit X p; bit Y q; mul 7 2; add 6 8 s d t e; rw 10 #6; rw 11 #7; rw 12 #8; rw 13 #8; rw 14 #9; rw 15 #10; rw 16 #11; rw 17 #12; rw 18 #13; rw 19 #14; rw 20 #15; rw 21 #16; rw 22 #17; false 1",
        None,
    ),
    (
        "false  X 1 <  -1 X * 0 <  Y 1 <  -1 Y * 0 <",
        5,
        "bit X p; bit Y q; add 6 7 s; false 1",
        Some((3, RuleWord::Add)),
    ),
    (
        "false  X 1 <  -1 X * 0 <  Y 1 <  -1 Y * 0 <",
        5,
        "bit X p; bit Y q; add 6 7 s d t; false 1",
        Some((3, RuleWord::Add)),
    ),
    (
        "false  X 1 <  -1 X * 0 <  Y 1 <  -1 Y * 0 <",
        5,
        "bit X p; bit Y q; add 6 7 s s; false 1",
        Some((3, RuleWord::Add)),
    ),
    (
        "false  X 1 <  -1 X * 0 <  Y 1 <  -1 Y * 0 <",
        5,
        "bit X p; bit Y q; add 6 7 s p; false 1",
        Some((3, RuleWord::Add)),
    ),
    (
        "false  X 1 <  -1 X * 0 <  Y 1 <  -1 Y * 0 <",
        5,
        "bit X p; bit Y q; add 6 7 s D; false 1",
        Some((3, RuleWord::Add)),
    ),
    (
        "false  X 1 <  -1 X * 0 <  Y 1 <  -1 Y * 0 <",
        5,
        "bit X p; bit Y q; add 6 1 s d; false 1",
        Some((3, RuleWord::Add)),
    ),
    (
        "false  X 1 <  -1 X * 0 <  Y 1 <  -1 Y * 0 <",
        5,
        "bit X p; bit Y q; add 9 7 s d; false 1",
        Some((3, RuleWord::Add)),
    ),
];

#[test]
fn false_keep_and_split(rt: HostRuntime) -> Result<(), Fail> {
    run(&rt, rt.alloc(), &CLOSING)?;
    Ok(())
}

#[test]
fn rw_and_and(rt: HostRuntime) -> Result<(), Fail> {
    run(&rt, rt.alloc(), &REWRITTEN)?;
    Ok(())
}

#[test]
fn def_subst_and_ite(rt: HostRuntime) -> Result<(), Fail> {
    run(&rt, rt.alloc(), &NAMED)?;
    Ok(())
}

#[test]
fn table_and_rup(rt: HostRuntime) -> Result<(), Fail> {
    run(&rt, rt.alloc(), &CLAUSES)?;
    Ok(())
}

#[test]
fn range_and_bits(rt: HostRuntime) -> Result<(), Fail> {
    run(&rt, rt.alloc(), &BOUNDED)?;
    Ok(())
}

#[test]
fn bit_mul_cmp_and_eqc(rt: HostRuntime) -> Result<(), Fail> {
    run(&rt, rt.alloc(), &WORDS)?;
    Ok(())
}

#[test]
fn add(rt: HostRuntime) -> Result<(), Fail> {
    run(&rt, rt.alloc(), &SUMS)?;
    Ok(())
}
