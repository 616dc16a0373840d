//! Failing sources and sinks, other words, and scripts that are too long.

use crate::setup::{Failing, Left, SURE, built, went};
use script_run::run;
use sexp_read::{MemSink, MemSource};
use std::test::Fail;

// A source whose fifth read fails, and a sink whose second write fails.
#[test]
fn stops_at_faults(rt: HostRuntime) -> Result<(), Fail> {
    let alloc = rt.alloc();
    let registry = built(alloc)?;
    let two =
        "(declare-const p Bool)(declare-const q Bool)(assert (or p q))(assert (not p))(check-sat-using sat)(get-model)";
    let check = "(check-sat-using sat)";
    let fifth_read = Failing {
        reads: &[5],
        writes: &[],
    };
    let second_write = Failing {
        reads: &[],
        writes: &[2],
    };
    let fourth_write = Failing {
        reads: &[],
        writes: &[4],
    };
    for script in [two, check] {
        let left = went(
            &rt,
            alloc,
            &registry,
            &["run"],
            script.as_bytes(),
            fifth_read,
        )?;
        assert_eq!(rt; left.status, 4, "at {script}");
        assert_eq!(rt; left.records, 0, "at {script}");
        assert_eq!(rt; left.text.len(), 0, "at {script}");
        let left = went(
            &rt,
            alloc,
            &registry,
            &["run"],
            script.as_bytes(),
            second_write,
        )?;
        assert_eq!(rt; left.status, 5, "at {script}");
        assert_eq!(rt; left.records, 1, "at {script}");
        assert_eq!(rt; left.text.as_slice(), b"s".as_slice(), "at {script}");
    }
    let left = went(&rt, alloc, &registry, &[], check.as_bytes(), fourth_write)?;
    assert_eq!(rt; left.status, 5);
    assert_eq!(rt; left.text.as_slice(), b"usa".as_slice());
    Ok(())
}

// Other words than the one word `run`: the usage line, and the script isn't read.
#[test]
fn tells_its_usage(rt: HostRuntime) -> Result<(), Fail> {
    let registry = built(rt.alloc())?;
    let script = "(check-sat-using sat)";
    let table: [&[&str]; 5] = [
        &["run", "run"],
        &[],
        &["gen"],
        &["RUN"],
        &["run", "--workers", "65"],
    ];
    for words in table {
        let Left {
            status,
            records,
            unread,
            text,
        } = went(&rt, rt.alloc(), &registry, words, script.as_bytes(), SURE)?;
        assert_eq!(rt; status, 2);
        assert_eq!(rt; records, 0);
        assert_eq!(rt; unread, script.len());
        assert_eq!(rt; text.as_slice(), b"usage: tacsmt run\n".as_slice());
    }
    Ok(())
}

// A script of as many blanks as a script may have bytes, and one with a blank more.
#[test]
fn tells_that_a_script_is_too_long(rt: HostRuntime) -> Result<(), Fail> {
    let alloc = rt.alloc();
    let registry = built(alloc)?;
    let words = vec![in alloc; String::from_str(alloc, "run")?]?;
    let table = [
        (67_108_864, 0, ""),
        (
            67_108_865,
            1,
            "(error \"line 1 column 1: script too long\")\n",
        ),
    ];
    for (count, status, text) in table {
        let blanks = vec![in alloc; b' '; count]?;
        let mut source = MemSource::new(blanks, 4096, Vec::new(alloc));
        let mut out = MemSink::new(alloc, 100, 100, Vec::new(alloc))?;
        let finished = run(&rt, alloc, &words, &registry, &mut source, &mut out);
        assert_eq!(rt; finished.status, status);
        assert_eq!(rt; out.written(), text.as_bytes());
    }
    Ok(())
}

// An assertion under so many `not`, each a level of nesting.
#[test]
fn tells_that_a_script_nests_too_deep(rt: HostRuntime) -> Result<(), Fail> {
    let alloc = rt.alloc();
    let registry = built(alloc)?;
    let table = [
        (999, 0, ""),
        (
            1000,
            1,
            "(error \"line 2 column 5004: nesting past 1000\")\n",
        ),
    ];
    for (count, status, text) in table {
        let mut script = String::from_str(alloc, "(declare-const p Bool)\n(assert ")?;
        for _ in 0..count {
            script.push_str("(not ")?;
        }
        script.push_str("p")?;
        for _ in 0..count {
            script.push_str(")")?;
        }
        script.push_str(")")?;
        let left = went(&rt, alloc, &registry, &["run"], script.as_bytes(), SURE)?;
        assert_eq!(rt; left.status, status, "at {count}");
        assert_eq!(rt; left.text.as_slice(), text.as_bytes(), "at {count}");
    }
    Ok(())
}
