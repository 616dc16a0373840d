//! Certificates and their texts.
use crate::texts::{proof, terms};
use cert_text::write_cert;
use qterm::Store;
use std::alloc::{AllocError, Global};
use std::process::Abort;
use std::test::Fail;
use tac_cert::{Cert, cert_fits};

/// The terms of a certificate, the numbers of its head, its lines, and its text.
type Row = (&'static str, (u32, u32), &'static str, &'static [u8]);

/// The text of a row's certificate.
fn text_of(alloc: Global, row: Row) -> Result<Vec<u8>, AllocError> {
    let mut store = Store::new(alloc);
    let ids = terms(alloc, &mut store, row.0)?;
    let cert = Cert::new(row.1.0, row.1.1, proof(alloc, ids.as_slice(), row.2)?);
    if cert_fits(&store, &cert) {
        write_cert(alloc, &store, &cert)
    } else {
        Err(AllocError)
    }
}

/// Each term has one line, in front of the first step that names it; names are quoted where they must be.
const TEXTS: [Row; 6] = [
    (
        "false",
        (1, 2),
        "rup #1 1 2; false 3",
        b"tacert 1 1 2\n. false\nrup #1 1 2\nfalse 3\nend\n",
    ),
    (
        "p !",
        (7, 0),
        "rw 1 #1; and 2 10; keep 3 1; keep; false 0",
        b"tacert 1 7 0\n. bool p\n. not #1\nrw 1 #2\nand 2 10\nkeep 3 1\nkeep\nfalse 0\nend\n",
    ),
    (
        "p X -2 Y * -5 +3 0 ?  X -2 Y * <  X Y =  p q ~  p !  true false |2  &5",
        (2, 3),
        "def Z #1; rw 1 #2; subst 2 #1 #2 3; ite 4; range 5; false 6",
        b"tacert 1 2 3\n. bool p\n. int X\n. int Y\n. mul -2 #3\n. num -5\n. sum #2 #4 #5\n. num 0\n. ite #1 #6 #7\ndef Z #8\n. le #2 #4\n. eq #2 #3\n. bool q\n. iff #1 #11\n. not #1\n. true\n. false\n. or #14 #15\n. and #9 #10 #12 #13 #16\nrw 1 #17\nsubst 2 #8 #17 3\nite 4\nrange 5\nfalse 6\nend\n",
    ),
    (
        "p !",
        (4294967295, 1),
        "bits X a :let; bits Y; bit X :1a; mul 2 -3; add 1 2 d e; cmp 3 4 f; eqc 3 -1 g h; table 5 #1; split 6 2; false 1; rup #1; false 2",
        b"tacert 1 4294967295 1\nbits X a |let|\nbits Y\nbit X |1a|\nmul 2 -3\nadd 1 2 d e\ncmp 3 4 f\neqc 3 -1 g h\n. bool p\n. not #1\ntable 5 #2\nsplit 6 2\nfalse 1\nrup #2\nfalse 2\nend\n",
    ),
    (
        "p q |2  p !  q !  false",
        (1, 3),
        "split 1 2; rup #4 2 4; false 5; rup #4 3 4; false 5",
        b"tacert 1 1 3\nsplit 1 2\n. false\nrup #1 2 4\nfalse 5\nrup #1 3 4\nfalse 5\nend\n",
    ),
    (
        "p  p !",
        (1, 1),
        "split 1 3; rup #2; split 2 1; false 3; false 4; rup #1 7; false 5",
        b"tacert 1 1 1\nsplit 1 3\n. bool p\n. not #1\nrup #2\nsplit 2 1\nfalse 3\nfalse 4\nrup #1 7\nfalse 5\nend\n",
    ),
];

#[test]
fn texts(rt: HostRuntime) -> Result<(), Fail> {
    let alloc = rt.alloc();
    for row in &TEXTS {
        let text = text_of(alloc, *row)?;
        assert_eq!(&rt; text.as_slice(), row.3, "{}", row.2);
    }
    Ok(())
}
