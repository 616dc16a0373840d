//! Symbols as they are written, from the rules of SMT-LIB 2.6.

use std::test::Fail;
use symbol_text::{is_plain, is_reserved, push_symbol};

#[test]
fn symbols_are_written(rt: HostRuntime) -> Result<(), Fail> {
    let alloc = rt.alloc();
    let rows: [(&[u8], &[u8], bool); 9] = [
        (b"x", b"x", false),
        (b"s_1_2", b"s_1_2", false),
        (b"x!0", b"x!0", false),
        (b"assert", b"|assert|", true),
        (b"par", b"|par|", true),
        (b"apply", b"apply", false),
        (b"", b"||", false),
        (b"0x", b"|0x|", false),
        (b"a b", b"|a b|", false),
    ];
    for (symbol, want, reserved) in rows {
        let mut text = Vec::new(alloc);
        push_symbol(&mut text, symbol)?;
        assert!(rt; text.as_slice() == want);
        assert_eq!(rt; is_reserved(symbol), reserved);
        assert_eq!(rt; is_plain(symbol), want == symbol);
    }
    Ok(())
}
