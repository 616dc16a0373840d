//! Copies of probes, names as keys, and numbers from digits. Rows of texts that are read, refused and written stand in `strat_tables`.

use indexmap::IndexSet;
use std::test::Fail;
use strat_text::{ProbeExpr, ReducerName, value};

#[test]
fn copies_probes_and_names(rt: HostRuntime) -> Result<(), Fail> {
    let alloc = rt.alloc();
    assert!(rt; matches!(ProbeExpr::Num(-5).copy(alloc)?, ProbeExpr::Num(-5)));
    let name = ReducerName::new(alloc, b"sat")?;
    let mut names = IndexSet::new(alloc);
    names.insert(name.clone()?)?;
    assert!(rt; names.contains(&name) && !names.contains(&ReducerName::new(alloc, b"skip")?));
    Ok(())
}

#[test]
fn reads_digits(rt: HostRuntime) {
    assert!(rt; value(b"065536") == Some(65_536));
    assert!(rt; value(b"340282366920938463463374607431768211455") == Some(u128::MAX));
    assert!(rt; value(b"340282366920938463463374607431768211456").is_none());
}
