//! Strategies 64 deep, on a thread with a small stack.

use crate::checks::{Found, How, built, found_of};
use std::alloc::{AllocError, Global};
use std::test::Fail;
use std::thread::Builder;

/// A word so many times behind a text, and another text.
fn repeated(text: &mut String, word: &str, count: u32, last: &str) -> Result<(), AllocError> {
    for _ in 0..count {
        text.push_str(word)?;
    }
    text.push_str(last)?;
    Ok(())
}

/// A `then` of so many parts within 62 forms: a strategy 64 deep, whose derivation is 62 deeper than there are parts.
fn tactic(alloc: Global, parts: u32) -> Result<String, AllocError> {
    let mut text = String::from_str(alloc, "")?;
    repeated(&mut text, "(try-for ", 62, "(then")?;
    repeated(&mut text, " skip", parts, ")")?;
    repeated(&mut text, " 9)", 62, "")?;
    Ok(text)
}

/// What such a strategy answers for one name.
fn deep(alloc: Global, parts: u32) -> Result<(Found, u64), AllocError> {
    let registry = built(alloc)?;
    let tactic = tactic(alloc, parts)?;
    let how = How {
        pool: 1,
        alone: false,
    };
    found_of(alloc, &registry, "p", tactic.as_str(), how)
}

/// The stack of a thread that runs strategies, in bytes.
const STACK: usize = 2 << 20;

// The parts of the strategy, and what the check answers. With 1,986 parts the derivation is 2,048 deep, and with one more it is too deep.
#[test]
fn strategies_of_the_greatest_depth(rt: HostRuntime) -> Result<(), Fail> {
    let alloc = rt.alloc();
    for (parts, wanted) in [
        (2, Found::Goals(1)),
        (1986, Found::Goals(1)),
        (1987, Found::TooDeep),
    ] {
        let thread = Builder::new()
            .stack_size(STACK)
            .spawn(&rt, move || deep(alloc, parts))?;
        assert_eq!(rt; thread.join(&rt)?, (wanted, 0), "{parts} parts");
    }
    Ok(())
}
