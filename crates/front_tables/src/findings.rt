//! What certificates come to against scripts.

use crate::setup::{SURE, went};
use std::test::Fail;

/// A script, the bytes of a certificate's source, the status, and the line.
type Row = (&'static str, &'static str, u8, &'static str);

/// Of p and (not p) follows the empty clause.
const OPPOSITE: &str = "(declare-const p Bool)(assert p)(assert (not p))(check-sat-using sat)";

/// Two checks; the second one is over assertions on another level.
const LEVELS: &str =
    "(declare-const p Bool)(assert p)(check-sat)(push 1)(assert p)(assert p)(pop 1)(push 2)(assert (not p))(check-sat-using any)(pop 2)";

const CERT: &str = "tacert 1 1 2\n. false\nrup #1 1 2\nfalse 3\nend\n";

const ROWS: [Row; 22] = [
    (OPPOSITE, CERT, 0, "accepted\n"),
    // What stands round the certificate is ignored, and the first line that begins one counts.
    (
        OPPOSITE,
        "unsat\ntacert 1 1 2\n. false\nrup #1 1 2\nfalse 3\nend\nsat\ntacert 2\n",
        0,
        "accepted\n",
    ),
    (
        OPPOSITE,
        " tacert 7\ntacert\ntacert 1 1 2\n. false\nrup #1 1 2\nfalse 3\nend\nend\n",
        0,
        "accepted\n",
    ),
    // The second check has two assertions, the first one and that behind the levels that were closed.
    (
        LEVELS,
        "tacert 1 2 2\n. false\nrup #1 1 2\nfalse 3\nend\n",
        0,
        "accepted\n",
    ),
    (
        LEVELS,
        "tacert 1 1 2\n. false\nrup #1 1 2\nfalse 3\nend\n",
        1,
        "refused step 0: head\n",
    ),
    (
        LEVELS,
        "tacert 1 1 1\n. false\nrup #1 1\nfalse 2\nend\n",
        1,
        "refused step 1: rup\n",
    ),
    // There is no third check, and none of number 0.
    (
        LEVELS,
        "tacert 1 3 2\n. false\nrup #1 1 2\nfalse 3\nend\n",
        1,
        "refused step 0: head\n",
    ),
    (
        LEVELS,
        "tacert 1 0 2\n. false\nrup #1 1 2\nfalse 3\nend\n",
        1,
        "refused step 0: head\n",
    ),
    // Each step and each closing line is counted.
    (
        OPPOSITE,
        "tacert 1 1 2\n. false\nrup #1 2 1\nkeep 3\nfalse 2\nend\n",
        1,
        "refused step 3: false\n",
    ),
    (
        OPPOSITE,
        "tacert 1 1 2\nand 1 1\nfalse 1\nend\n",
        1,
        "refused step 1: and\n",
    ),
    (
        OPPOSITE,
        "tacert 1 1 2\nfalse 1\nend\n",
        1,
        "refused step 1: false\n",
    ),
    // A reset takes the assertions away; names stay out of what the rules are about.
    (
        "(declare-const p Bool)(assert p)(reset-assertions)(assert false)(check-sat)",
        "tacert 1 1 1\nfalse 1\nend\n",
        0,
        "accepted\n",
    ),
    // A fault of the script counts where it stands before the named check, and else doesn't.
    (
        "(assert false)(check-sat)(assert q)",
        "tacert 1 1 1\nfalse 1\nend\n",
        0,
        "accepted\n",
    ),
    (
        "(assert false)(check-sat)\n (assert q)(check-sat)",
        "tacert 1 2 1\nfalse 1\nend\n",
        1,
        "(error \"line 2 column 10: unknown symbol\")\n",
    ),
    (
        "(assert false)(exit)(check-sat)",
        "tacert 1 1 1\nfalse 1\nend\n",
        1,
        "refused step 0: head\n",
    ),
    (
        "(assert false",
        "tacert 1 1 1\nfalse 1\nend\n",
        1,
        "(error \"line 1 column 1: unclosed parenthesis\")\n",
    ),
    // The certificate's text comes before the script.
    (
        "(assert false",
        "tacert 1 1 1\nfalse 1\n",
        6,
        "malformed line 3\n",
    ),
    (OPPOSITE, "", 6, "malformed line 1\n"),
    (
        OPPOSITE,
        "unsat\n tacert 1 1 2\nend\n",
        6,
        "malformed line 1\n",
    ),
    (
        OPPOSITE,
        "sat\nsat\ntacert 1 1 2\nrup #1 1 2\nfalse 3\nend\n",
        6,
        "malformed line 2\n",
    ),
    // The certificate ends with its first line `end`.
    (
        OPPOSITE,
        "tacert 1 1 2\nend\n. false\nrup #1 1 2\nfalse 3\nend\n",
        6,
        "malformed line 2\n",
    ),
    // The last line has no line feed.
    (
        OPPOSITE,
        "tacert 1 1 2\n. false\nrup #1 1 2\nfalse 3\nend",
        6,
        "malformed line 5\n",
    ),
];

#[test]
fn findings(rt: HostRuntime) -> Result<(), Fail> {
    let alloc = rt.alloc();
    for (script, cert, status, line) in ROWS {
        let left = went(alloc, &["a.smt2"], script.as_bytes(), cert.as_bytes(), SURE)?;
        assert_eq!(rt; left.text.as_slice(), line.as_bytes(), "{cert}");
        assert_eq!(rt; left.status, status, "{cert}");
        assert_eq!(rt; left.script, 0, "{cert}");
        assert_eq!(rt; left.cert, 0, "{cert}");
    }
    Ok(())
}
