//! How deep splits and terms may be, and how many names a rule takes.

use crate::rules::verdict_on;
use crate::texts::{proof, terms};
use cert_check::{RuleWord, Verdict};
use qterm::Store;
use sqlite_items::Items;
use std::alloc::{AllocError, Global};
use std::test::Fail;
use std::thread::Builder;
use tac_cert::{Cert, Close, Proof, Step};

/// A proof of so many splits of item 2 in one another, which ends at item 1. Each keeps all items first, where it says so.
fn nested(alloc: Global, splits: u32, keeps: bool) -> Result<Proof, AllocError> {
    let mut proof = Proof {
        steps: Items::new(alloc),
        close: Close::False(1),
    };
    for _ in 0..splits {
        let mut cases = Items::new(alloc);
        cases.push(proof)?;
        let mut steps = Items::new(alloc);
        if keeps {
            let items = Items::from_slice(alloc, &[1, 2])?;
            steps.push(Step::Keep { items })?;
        }
        proof = Proof {
            steps,
            close: Close::Split { item: 2, cases },
        };
    }
    Ok(proof)
}

/// What the check says of splits in one another, against `false` and an `Or` of one child.
fn nested_verdict(alloc: Global, splits: u32, keeps: bool) -> Result<Verdict, AllocError> {
    let mut store = Store::new(alloc);
    let ids = terms(alloc, &mut store, "false  p |1")?;
    let cert = Cert::new(1, 2, nested(alloc, splits, keeps)?);
    verdict_on(alloc, &mut store, ids.as_slice(), &cert)
}

/// The stack of a thread that checks certificates, in bytes.
const STACK: usize = 2 << 20;

// Splits, whether each has a `keep` before it, and what the check says.
#[test]
fn splits_in_one_another(rt: HostRuntime) -> Result<(), Fail> {
    let alloc = rt.alloc();
    let refused = Verdict::Refused {
        step: 2_049,
        rule: RuleWord::Split,
    };
    let rows = [
        (2_048, false, Verdict::Accepted),
        (2_048, true, Verdict::Accepted),
        (2_049, false, refused),
    ];
    for (splits, keeps, wanted) in rows {
        let thread = Builder::new()
            .stack_size(STACK)
            .spawn(&rt, move || nested_verdict(alloc, splits, keeps))?;
        assert_eq!(rt; thread.join(&rt)?, wanted, "{splits} splits");
    }
    Ok(())
}

/// A text, a word after it so many times, and another text.
fn repeated(
    alloc: Global,
    first: &str,
    word: &str,
    count: u32,
    last: &str,
) -> Result<String, AllocError> {
    let mut text = String::from_str(alloc, first)?;
    for _ in 0..count {
        text.push_str(word)?;
    }
    text.push_str(last)?;
    Ok(text)
}

/// What the check says of a term that is so deep, as item 2 and the formula that is written anew.
fn deep_verdict(alloc: Global, depth: u32) -> Result<Verdict, AllocError> {
    let mut store = Store::new(alloc);
    let text = repeated(alloc, "false  p", " !", depth.saturating_sub(1), "")?;
    let ids = terms(alloc, &mut store, text.as_str())?;
    let cert = Cert::new(1, 2, proof(alloc, ids.as_slice(), "rw 2 #2; false 1")?);
    verdict_on(alloc, &mut store, ids.as_slice(), &cert)
}

#[test]
fn terms_of_the_greatest_depth(rt: HostRuntime) -> Result<(), Fail> {
    let refused = Verdict::Refused {
        step: 1,
        rule: RuleWord::Rw,
    };
    for (depth, wanted) in [(4_096, Verdict::Accepted), (4_097, refused)] {
        assert_eq!(rt; deep_verdict(rt.alloc(), depth)?, wanted, "{depth} deep");
    }
    Ok(())
}
