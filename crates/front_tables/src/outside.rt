//! Other words, and sources and sinks that fail.

use crate::setup::{Failing, SURE, went};
use std::test::Fail;

const SCRIPT: &[u8] = b"(assert false)(check-sat)";

const CERT: &[u8] = b"tacert 1 1 1\nfalse 1\nend\n";

const USAGE: &[u8] = b"usage: taccheck SCRIPT\n";

/// No file is named by these, and nothing is read.
const WRONG: [&[&str]; 5] = [&[], &[""], &["-h"], &["--"], &["a.smt2", "b.smt2"]];

#[test]
fn words(rt: HostRuntime) -> Result<(), Fail> {
    let alloc = rt.alloc();
    for words in WRONG {
        let left = went(alloc, words, SCRIPT, CERT, SURE)?;
        assert_eq!(rt; left.status, 2);
        assert_eq!(rt; left.text.as_slice(), USAGE);
        assert_eq!(rt; left.script, SCRIPT.len());
        assert_eq!(rt; left.cert, CERT.len());
    }
    let left = went(alloc, &["a-b"], SCRIPT, CERT, SURE)?;
    assert_eq!(rt; left.status, 0);
    assert_eq!(rt; left.text.as_slice(), b"accepted\n".as_slice());
    Ok(())
}

// A failed read of either source, and a failed write of each line.
#[test]
fn faults(rt: HostRuntime) -> Result<(), Fail> {
    let alloc = rt.alloc();
    let script_reads = Failing {
        script_reads: &[2],
        ..SURE
    };
    let left = went(alloc, &["a"], SCRIPT, CERT, script_reads)?;
    assert_eq!(rt; left.status, 4);
    assert_eq!(rt; left.text.len(), 0);
    let cert_reads = Failing {
        cert_reads: &[4],
        ..SURE
    };
    let left = went(alloc, &["a"], SCRIPT, CERT, cert_reads)?;
    assert_eq!(rt; left.status, 4);
    assert_eq!(rt; left.text.len(), 0);
    // A failed read comes before a certificate that is malformed.
    let left = went(
        alloc,
        &["a"],
        SCRIPT,
        b"tacert 1\nfalse 1\nmore lines\n",
        cert_reads,
    )?;
    assert_eq!(rt; left.status, 4);
    assert_eq!(rt; left.text.len(), 0);
    let writes = Failing {
        writes: &[2],
        ..SURE
    };
    let left = went(alloc, &["a"], SCRIPT, CERT, writes)?;
    assert_eq!(rt; left.status, 5);
    assert_eq!(rt; left.text.as_slice(), b"acc".as_slice());
    let left = went(alloc, &[], SCRIPT, CERT, writes)?;
    assert_eq!(rt; left.status, 5);
    assert_eq!(rt; left.text.as_slice(), b"usa".as_slice());
    Ok(())
}
