//! Texts of certificates.
use cert_read::read_cert;
use cert_text::write_cert;
use qterm::Store;
use std::alloc::{AllocError, Global};
use std::test::Fail;
use tac_cert::cert_fits;

/// The text of the certificate that a text gives, or the line that is told.
pub fn again(alloc: Global, text: &[u8]) -> Result<Result<Vec<u8>, u32>, AllocError> {
    let mut store = Store::new(alloc);
    match read_cert(alloc, &mut store, text)? {
        Ok(cert) => if cert_fits(&store, &cert) {
            Ok(Ok(write_cert(alloc, &store, &cert)?))
        } else {
            Err(AllocError)
        },
        Err(bad) => Ok(Err(bad.line)),
    }
}

/// Each is the text of a certificate: of every rule, every kind of term, names between bars, splits in one another.
const TEXTS: [&[u8]; 12] = [
    b"tacert 1 1 2\n. false\nrup #1 1 2\nfalse 3\nend\n",
    b"tacert 1 1 2\n. true\ndef p #1\n. false\nrup #2 1 2\nfalse 4\nend\n",
    b"tacert 1 1 3\nsplit 1 2\n. false\nrup #1 2 4\nfalse 5\nrup #1 3 4\nfalse 5\nend\n",
    b"tacert 1 7 0\n. bool p\n. not #1\nrw 1 #2\nand 2 10\nkeep 3 1\nkeep\nfalse 0\nend\n",
    b"tacert 1 2 3\n. bool p\n. int X\n. int Y\n. mul -2 #3\n. num -5\n. sum #2 #4 #5\n. num 0\n. ite #1 #6 #7\ndef Z #8\n. le #2 #4\n. eq #2 #3\n. bool q\n. iff #1 #11\n. not #1\n. true\n. false\n. or #14 #15\n. and #9 #10 #12 #13 #16\nrw 1 #17\nsubst 2 #8 #17 3\nite 4\nrange 5\nfalse 6\nend\n",
    b"tacert 1 4294967295 1\nbits X a |let|\nbits Y\nbit X |1a|\nmul 2 -3\nadd 1 2 d e\ncmp 3 4 f\neqc 3 -1 g h\n. bool p\n. not #1\ntable 5 #2\nsplit 6 2\nfalse 1\nrup #2\nfalse 2\nend\n",
    b"tacert 1 1 1\nsplit 1 3\n. bool p\n. not #1\nrup #2\nsplit 2 1\nfalse 3\nfalse 4\nrup #1 7\nfalse 5\nend\n",
    b"tacert 1 0 0\nsplit 0 0\nend\n",
    b"tacert 1 1 1\nsplit 1 2\nsplit 2 0\nsplit 3 1\nfalse 4\nend\n",
    b"tacert 1 1 1\n. bool p\n. int p\n. le #2 #2\n. and #1 #3\nrw 1 #4\nfalse 1\nend\n",
    b"tacert 1 1 1\nmul 1 -170141183460469231731687303715884105728\nmul 4294967295 170141183460469231731687303715884105727\nfalse 1\nend\n",
    b"tacert 1 1 1\nbits |a b| || |  | |#1|\nfalse 1\nend\n",
];

#[test]
fn texts(rt: HostRuntime) -> Result<(), Fail> {
    let alloc = rt.alloc();
    for text in &TEXTS {
        match again(alloc, text)? {
            Ok(written) => assert_eq!(&rt; written.as_slice(), *text),
            Err(line) => assert_eq!(&rt; line, 0, "{:?}", text),
        }
    }
    Ok(())
}
