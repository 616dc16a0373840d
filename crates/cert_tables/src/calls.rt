//! The head of a certificate, and the items of a walk as a caller of the rules holds them.
ghost use Rattle.std.specs.Prelude.{OnOk};
ghost use Rattle.cert_items.specs.State.{IsState};

use crate::rules::verdict_on;
use crate::texts::{proof, terms};
use cert_check::{RuleWord, Verdict};
use cert_items::{Held, State};
use qterm::{Sort, Store, TermId};
use std::alloc::{AllocError, Global};
use std::test::Fail;
use tac_cert::{Cert, cert_fits, renumber};

#[test]
fn heads(rt: HostRuntime) -> Result<(), Fail> {
    let alloc = rt.alloc();
    let mut store = Store::new(alloc);
    let ids = terms(alloc, &mut store, "p  p !  false")?;
    let asserts = ids.as_slice().get(..2).ok_or(AllocError)?;
    let steps = proof(alloc, ids.as_slice(), "rup #3 1 2; false 3")?;
    let longer = renumber(Cert::new(1, 2, steps), 7, 3);
    let refused = Verdict::Refused {
        step: 0,
        rule: RuleWord::Head,
    };
    assert_eq!(rt; verdict_on(alloc, &mut store, asserts, &longer)?, refused);
    let cert = renumber(longer, 8, 2);
    assert_eq!(rt;
        verdict_on(alloc, &mut store, asserts, &cert)?,
        Verdict::Accepted
    );
    assert!(rt; cert.check == 8 && cert_fits(&store, &cert));
    assert!(rt; !cert_fits(&Store::new(alloc), &cert));
    Ok(())
}

/// Puts a formula behind the items.
fn push(alloc: Global, store: &Store, state: &mut State, id: TermId) -> Result<(), AllocError>
    requires state { IsState store.now state.old }
    ensures state { OnOk result (IsState store.now state.new) }
{
    if store.has(id) && store.sort(id) == Sort::Bool {
        state.push(alloc, store, Held::Formula(id))
    } else {
        Err(AllocError)
    }
}

/// The bounds of a name, the last of the terms, after the other three as items, after the first two of them, and after the second alone.
fn bounds(
    alloc: Global,
    store: &Store,
    ids: &[TermId],
) -> Result<[(Option<i128>, Option<i128>); 3], AllocError> {
    let (a, b, c, x) = match ids {
        [a, b, c, x] if store.has(*x) => (*a, *b, *c, *x),
        _ => return Err(AllocError),
    };
    let mut state = State::new(alloc);
    push(alloc, store, &mut state, a)?;
    push(alloc, store, &mut state, b)?;
    push(alloc, store, &mut state, c)?;
    let all = state.bounds(store, x);
    if state.items().len() < 2 {
        return Err(AllocError);
    }
    state.cut(store, 2)?;
    let two = state.bounds(store, x);
    let kept = state.kept(alloc, store, &[2])?.ok_or(AllocError)?;
    let one = kept.bounds(store, x);
    Ok([(all.low, all.up), (two.low, two.up), (one.low, one.up)])
}

#[test]
fn bounds_of_names(rt: HostRuntime) -> Result<(), Fail> {
    let alloc = rt.alloc();
    let mut store = Store::new(alloc);
    let ids = terms(alloc, &mut store, "X 3 <  -1 X * 1 <  X 2 =  X")?;
    let found = bounds(alloc, &store, ids.as_slice())?;
    let wanted = [(Some(2), Some(2)), (Some(-1), Some(3)), (Some(-1), None)];
    assert!(rt; found == wanted);
    Ok(())
}
