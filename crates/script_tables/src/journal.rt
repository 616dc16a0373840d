//! Journals of runs: their records, and the certificates in them.

ghost use Rattle.std.specs.Prelude.{◌↔◌, All, IsTrue};
ghost use Rattle.qterm.specs.declared.name.Sort.TheVariants.{Bool};
ghost use Rattle.qterm.specs.Store.{HasSort};

use crate::setup::built;
use cert_check::{Verdict, check};
use qterm::{Sort, Store, TermId};
use script_run::{Answer, Finished, run};
use sexp_read::{MemSink, MemSource, SureSink, SureSource};
use std::alloc::{AllocError, Global};
use std::test::Fail;
use std::thread::Threads;
use tac_cert::{Cert, cert_fits};

// A run whose source and sink can't fail, for its journal.
#[test]
fn runs_for_the_journal_alone(rt: HostRuntime) -> Result<(), Fail> {
    let alloc = rt.alloc();
    let registry = built(alloc)?;
    let words = vec![in alloc; String::from_str(alloc, "run")?]?;
    let script = "(declare-const p Bool)(assert p)(check-sat-using sat)";
    let mut source = SureSource::new(script.as_bytes().to_vec(alloc)?, 4096);
    let mut out = SureSink::new();
    let finished = run(&rt, alloc, &words, &registry, &mut source, &mut out);
    assert_eq!(rt; finished.status, 0);
    let [record] = finished.journal.as_slice() else {
        panic!(rt; "not one record");
    };
    assert_eq!(rt; record.number, 1);
    assert_eq!(rt; record.asserts.len(), 1);
    assert_eq!(rt; record.workers, 1);
    assert_eq!(rt; record.pool, 1 << 62);
    assert!(rt; matches!(&record.answer, Answer::Sat(_)));
    Ok(())
}

/// Whether these are formulas of the store.
fn are_formulas(store: &Store, ids: &[TermId]) -> bool
    ensures { IsTrue result ↔ All (HasSort Bool store.now) ids.now }
{
    ids.iter()
        .all(|id| store.has(*id) && store.sort(*id) == Sort::Bool)
}

/// Whether a certificate is accepted against assertions.
fn is_accepted(
    alloc: Global,
    store: &mut Store,
    asserts: &[TermId],
    cert: &Cert,
) -> Result<bool, AllocError> {
    if !cert_fits(store, cert) || !are_formulas(store, asserts) {
        return Ok(false);
    }
    Ok(check(alloc, store, asserts, cert)? == Verdict::Accepted)
}

/// Whether the text of a run of a script begins and ends so, and the certificate of its one check is accepted.
fn is_proved(
    rt: &impl Threads,
    alloc: Global,
    script: &str,
    begin: &str,
    end: &str,
) -> Result<bool, AllocError> {
    let registry = built(alloc)?;
    let words = vec![in alloc; String::from_str(alloc, "run")?]?;
    let mut source = MemSource::new(script.as_bytes().to_vec(alloc)?, 4096, Vec::new(alloc));
    let mut out = MemSink::new(alloc, 10_000, 4096, Vec::new(alloc))?;
    let Finished {
        mut store,
        journal,
        ..
    } = run(rt, alloc, &words, &registry, &mut source, &mut out);
    let text = out.written();
    if !text.starts_with(begin.as_bytes()) || !text.ends_with(end.as_bytes()) {
        return Ok(false);
    }
    match journal.as_slice() {
        [record] => match &record.answer {
            Answer::Unsat(cert) => is_accepted(alloc, &mut store, record.asserts.as_slice(), cert),
            _ => Ok(false),
        },
        _ => Ok(false),
    }
}

// Certificates are shown, and accepted.
#[test]
fn shows_certificates(rt: HostRuntime) -> Result<(), Fail> {
    let table = [
        (
            "(declare-const p Bool)(assert p)(assert (not p))(check-sat-using (then simplify sat))(get-proof)",
            "unsat\ntacert 1 1 2\n",
            "\nend\n",
        ),
        (
            "(declare-const p Bool)(assert p)(assert (not p))(check-sat-using (or-else fail (then skip sat)))(get-proof)",
            "unsat\ntacert 1 1 2\n",
            "\nend\n",
        ),
        (
            "(declare-const x Int)(assert (= (* 3 x) 4))(check-sat-using simplify)(get-proof)",
            "unsat\ntacert 1 1 1\n",
            "\nend\n",
        ),
    ];
    for (script, begin, end) in table {
        let proved = is_proved(&rt, rt.alloc(), script, begin, end)?;
        assert!(rt; proved, "at {script}");
    }
    Ok(())
}
