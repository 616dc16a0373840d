//! Texts that are not those of certificates.
use crate::whole::again;
use std::test::Fail;

/// A text, and the line that is told.
type Row = (&'static [u8], u32);

/// A text without one of its lines, or cut off.
const CUT: [Row; 10] = [
    (b". false\nrup #1 1 2\nfalse 3\nend\n", 1),
    (b"tacert 1 1 2\nrup #1 1 2\nfalse 3\nend\n", 2),
    (b"tacert 1 1 2\n. false\nfalse 3\nend\n", 3),
    (b"tacert 1 1 2\n. false\nrup #1 1 2\nend\n", 4),
    (b"tacert 1 1 2\n. false\nrup #1 1 2\nfalse 3\n", 5),
    (b"tacert 1 1 2\n. false\nrup #1 1", 3),
    (b"tacert 1 1 2\n. false\nrup #1 1 2\nfalse 3", 4),
    (b"tacert 1 1 2\n. false\nrup #1 1 2\nfalse 3\nend", 5),
    (b"", 1),
    (b"tacert 1 1 2\n", 2),
];

/// Something behind the end, and first lines that are none.
const ENDS: [Row; 11] = [
    (b"tacert 1 1 2\nfalse 3\nend\n\n", 4),
    (b"tacert 1 1 2\nfalse 3\nend\nend\n", 4),
    (b"tacert 1 1 2\nfalse 3\nend \n", 3),
    (b"tacert 2 1 2\nfalse 3\nend\n", 1),
    (b"tacert 1 01 2\nfalse 3\nend\n", 1),
    (b"tacert 1 1\nfalse 3\nend\n", 1),
    (b"tacert 1 1 4294967296\nfalse 3\nend\n", 1),
    (b"tacert 1 -1 2\nfalse 3\nend\n", 1),
    (b"tacert  1 1 2\nfalse 3\nend\n", 1),
    (b"tacert 1 1 2 \nfalse 3\nend\n", 1),
    (b" tacert 1 1 2\nfalse 3\nend\n", 1),
];

/// Lines of terms: twice, by numbers that aren't there, of wrong sorts, with too few or too many words.
const TERMS: [Row; 14] = [
    (
        b"tacert 1 1 2\n. false\n. false\nrw 1 #1\nfalse 1\nend\n",
        3,
    ),
    (
        b"tacert 1 1 2\n. bool p\nrw 1 #1\n. bool p\nrw 1 #2\nfalse 1\nend\n",
        4,
    ),
    (b"tacert 1 1 2\n. not #1\nrw 1 #1\nfalse 1\nend\n", 2),
    (
        b"tacert 1 1 2\n. bool p\n. not #0\nrw 1 #2\nfalse 1\nend\n",
        3,
    ),
    (
        b"tacert 1 1 2\n. bool p\n. not #01\nrw 1 #2\nfalse 1\nend\n",
        3,
    ),
    (
        b"tacert 1 1 2\n. int x\n. not #1\nrw 1 #2\nfalse 1\nend\n",
        3,
    ),
    (
        b"tacert 1 1 2\n. bool p\n. sum #1\nrw 1 #2\nfalse 1\nend\n",
        3,
    ),
    (
        b"tacert 1 1 2\n. bool p\n. iff #1\nrw 1 #2\nfalse 1\nend\n",
        3,
    ),
    (
        b"tacert 1 1 2\n. bool p\n. not #1 #1\nrw 1 #2\nfalse 1\nend\n",
        3,
    ),
    (b"tacert 1 1 2\n. true #1\nrw 1 #1\nfalse 1\nend\n", 2),
    (b"tacert 1 1 2\n. num 00\ndef x #1\nfalse 1\nend\n", 2),
    (b"tacert 1 1 2\n. num -0\ndef x #1\nfalse 1\nend\n", 2),
    (b"tacert 1 1 2\n. num +1\ndef x #1\nfalse 1\nend\n", 2),
    (b"tacert 1 1 2\n.\nfalse 1\nend\n", 2),
];

/// Lines of terms that no step calls for, or in another order than that in which they are written.
const ORDERS: [Row; 8] = [
    (
        b"tacert 1 1 2\n. bool p\n. bool q\nrw 1 #1\nfalse 1\nend\n",
        4,
    ),
    (
        b"tacert 1 1 2\n. bool p\n. bool q\nrw 1 #2\nfalse 1\nend\n",
        4,
    ),
    (
        b"tacert 1 1 2\n. bool p\nkeep 1\nrw 1 #1\nfalse 1\nend\n",
        3,
    ),
    (b"tacert 1 1 2\n. bool p\nfalse 1\nend\n", 3),
    (
        b"tacert 1 1 2\n. bool p\nsplit 1 1\nrw 1 #1\nfalse 1\nend\n",
        3,
    ),
    (
        b"tacert 1 1 2\n. bool p\n. bool q\n. and #2 #1\nrw 1 #3\nfalse 1\nend\n",
        5,
    ),
    (
        b"tacert 1 1 2\n. bool p\n. bool q\nsubst 1 #2 #1 1\nfalse 1\nend\n",
        4,
    ),
    (
        b"tacert 1 1 2\n. bool p\n. bool q\n. and #1 #2\nsubst 1 #2 #3 1\nfalse 1\nend\n",
        5,
    ),
];

/// Lines of steps.
const STEPS: [Row; 17] = [
    (b"tacert 1 1 2\nrun 1\nfalse 1\nend\n", 2),
    (b"tacert 1 1 2\n\nfalse 1\nend\n", 2),
    (b"tacert 1 1 2\nkeep 1 \nfalse 1\nend\n", 2),
    (b"tacert 1 1 2\nkeep  1\nfalse 1\nend\n", 2),
    (b"tacert 1 1 2\nkeep 4294967296\nfalse 1\nend\n", 2),
    (b"tacert 1 1 2\nkeep\r\nfalse 1\nend\n", 2),
    (b"tacert 1 1 2\nand 1\nfalse 1\nend\n", 2),
    (b"tacert 1 1 2\nand 1 2 3\nfalse 1\nend\n", 2),
    (
        b"tacert 1 1 2\nmul 1 170141183460469231731687303715884105728\nfalse 1\nend\n",
        2,
    ),
    (
        b"tacert 1 1 2\nmul 1 -170141183460469231731687303715884105729\nfalse 1\nend\n",
        2,
    ),
    (b"tacert 1 1 2\nbits |x| b\nfalse 1\nend\n", 2),
    (b"tacert 1 1 2\nbits let b\nfalse 1\nend\n", 2),
    (b"tacert 1 1 2\nbits 1x b\nfalse 1\nend\n", 2),
    (b"tacert 1 1 2\nbits |a b\nfalse 1\nend\n", 2),
    (b"tacert 1 1 2\nbits |a b|c\nfalse 1\nend\n", 2),
    (b"tacert 1 1 2\nbits |a\\b| c\nfalse 1\nend\n", 2),
    (b"tacert 1 1 2\nbit x p q\nfalse 1\nend\n", 2),
];

/// Splits with too few or too many cases.
const SPLITS: [Row; 6] = [
    (b"tacert 1 1 2\nsplit 1 2\nfalse 1\nend\n", 4),
    (b"tacert 1 1 2\nsplit 1 1\nfalse 1\nfalse 1\nend\n", 4),
    (b"tacert 1 1 2\nsplit 1 0\nfalse 1\nend\n", 3),
    (b"tacert 1 1 2\nsplit 1\nfalse 1\nend\n", 2),
    (b"tacert 1 1 2\nsplit 1 007\nfalse 1\nend\n", 2),
    (
        b"tacert 1 1 2\nsplit 1 999999999999999999999999999999999999999999\nfalse 1\nfalse 1\n",
        5,
    ),
];

#[test]
fn lines(rt: HostRuntime) -> Result<(), Fail> {
    let alloc = rt.alloc();
    let tables: [&[Row]; 6] = [&CUT, &ENDS, &TERMS, &ORDERS, &STEPS, &SPLITS];
    for table in tables {
        for row in table {
            match again(alloc, row.0)? {
                Ok(_) => assert_eq!(&rt; 0, row.1, "{:?}", row.0),
                Err(line) => assert_eq!(&rt; line, row.1, "{:?}", row.0),
            }
        }
    }
    Ok(())
}
