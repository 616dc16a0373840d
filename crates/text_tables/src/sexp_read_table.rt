//! S-expressions, sources and sinks.

use sexp_read::{
    AtomKind, BadText, MemSink, MemSource, Next, ReadEnd, Sexp, Sink, Source, StdSink, StdSource,
    SureSink, SureSource, atom_text, is_simple_symbol, line_column, next_sexp, read_all,
    symbol_name, write_whole,
};
use std::io::{self, ErrorKind, Write};
use std::test::Fail;

const ATOMS: [(&[u8], AtomKind); 18] = [
    (b"a.b", AtomKind::Symbol),
    (b"!", AtomKind::Symbol),
    (b"-5", AtomKind::Symbol),
    (b"|a b|", AtomKind::Quoted),
    (b"|\xE9;\"|", AtomKind::Quoted),
    (b"0", AtomKind::Numeral),
    (b"10", AtomKind::Numeral),
    (b"1.50", AtomKind::Decimal),
    (b"0.0", AtomKind::Decimal),
    (b"#xAf", AtomKind::Bits),
    (b"#b01", AtomKind::Bits),
    (b"\"\"", AtomKind::Text),
    (b"\"a\"\"b\"", AtomKind::Text),
    (b"\"\"\"\"", AtomKind::Text),
    (b"\"\t\r\n\"", AtomKind::Text),
    (b"\"\xE9\"", AtomKind::Text),
    (b":named", AtomKind::Keyword),
    (b":!", AtomKind::Keyword),
];

#[test]
fn reads_atoms(rt: HostRuntime) -> Result<(), Fail> {
    for (bytes, want) in ATOMS {
        let next = next_sexp(rt.alloc(), bytes, 0)?;
        let whole = bytes.len();
        assert!(rt;
            matches!(next, Next::Item(Sexp::Atom { kind, start: 0, end }, at) if kind == want && end == whole && at == whole)
        );
    }
    Ok(())
}

const BAD_TOKENS: [(&[u8], usize); 25] = [
    (b"\"a", 0),
    (b"\"a\"\"", 0),
    (b"\"\x01\"", 0),
    (b"|a", 0),
    (b"|a\\b|", 0),
    (b"|\x7F|", 0),
    (b"007", 0),
    (b"1a", 0),
    (b"1.", 0),
    (b"01.5", 0),
    (b"1.5.0", 0),
    (b"#b012", 0),
    (b"#x", 0),
    (b"#XA", 0),
    (b":", 0),
    (b":1", 0),
    (b"::a", 0),
    (b"a:b", 0),
    (b"a#", 0),
    (b" \xC3\xA9", 1),
    (b"'", 0),
    (b"\x0C", 0),
    (b"\t)", 1),
    (b"(a \"b", 3),
    (b"(a (b 01", 6),
];

#[test]
fn finds_bad_tokens(rt: HostRuntime) -> Result<(), Fail> {
    for (bytes, want) in BAD_TOKENS {
        let next = next_sexp(rt.alloc(), bytes, 0)?;
        assert!(rt; matches!(next, Next::Bad { place, what: BadText::Lexical } if place == want));
    }
    Ok(())
}

#[test]
fn ends_tokens(rt: HostRuntime) -> Result<(), Fail> {
    for (bytes, end) in [
        (b"ab(c)".as_slice(), 2),
        (b"a|b|", 1),
        (b"\"\"x", 2),
        (b"; \xE9\x01\na", 6),
        (b";a\rb", 4),
        (b"(a (0 ) )x", 9),
    ] {
        let next = next_sexp(rt.alloc(), bytes, 0)?;
        assert!(rt; matches!(next, Next::Item(_, at) if at == end));
    }
    assert!(rt; matches!(next_sexp(rt.alloc(), b" ;(\r\n", 0)?, Next::End));
    Ok(())
}

fn nested(rt: &HostRuntime, depth: usize) -> Result<Next, Fail> {
    let alloc = rt.alloc();
    let mut bytes = Vec::new(alloc);
    for _ in 0..depth {
        bytes.push(b'(')?;
    }
    for _ in 0..depth {
        bytes.push(b')')?;
    }
    Ok(next_sexp(alloc, &bytes, 0)?)
}

#[test]
fn nests_a_thousand_deep(rt: HostRuntime) -> Result<(), Fail> {
    assert!(rt; matches!(nested(&rt, 1000)?, Next::Item(_, 2000)));
    assert!(rt;
        matches!(
            nested(&rt, 1001)?,
            Next::Bad {
                place: 1000,
                what: BadText::TooDeep
            }
        )
    );
    let unclosed = next_sexp(rt.alloc(), b" ; x\n(a (b)", 0)?;
    assert!(rt;
        matches!(
            unclosed,
            Next::Bad {
                place: 5,
                what: BadText::Unclosed
            }
        )
    );
    Ok(())
}

#[test]
fn shows_atoms(rt: HostRuntime) -> Result<(), Fail> {
    let alloc = rt.alloc();
    let bytes = b" (|a b| c \"d\")";
    if let Next::Item(Sexp::List { items, .. }, 14) = next_sexp(alloc, bytes, 0)? {
        if let [bar, plain, text] = items.as_slice() {
            assert!(rt; atom_text(bytes, bar) == Some(b"|a b|".as_slice()));
            assert!(rt; symbol_name(bytes, bar) == Some(b"a b".as_slice()));
            assert!(rt; symbol_name(bytes, plain) == Some(b"c".as_slice()));
            assert!(rt; symbol_name(bytes, text).is_none());
            assert!(rt; is_simple_symbol(b"c") && !is_simple_symbol(b"a b"));
            assert!(rt; text.kind() == Some(AtomKind::Text));
            assert!(rt; text.start() == 10 && text.end() == 13);
            return Ok(());
        }
    }
    assert!(rt; false);
    Ok(())
}

#[test]
fn finds_lines(rt: HostRuntime) {
    let bytes = b"a\r\n\rbc\n\n";
    for (place, want) in [
        (0, (1, 1)),
        (2, (1, 3)),
        (3, (2, 1)),
        (6, (2, 4)),
        (7, (3, 1)),
        (8, (4, 1)),
    ] {
        assert_eq!(rt; line_column(bytes, place), want);
    }
}

#[test]
fn reads_to_the_end(rt: HostRuntime) -> Result<(), Fail> {
    let alloc = rt.alloc();
    let mut whole = MemSource::new(vec![in alloc; b'a', b'b', b'c']?, 2, Vec::new(alloc));
    assert!(rt; read_all(alloc, &mut whole, 3)?.as_slice() == b"abc".as_slice());
    assert!(rt; whole.left().is_empty());

    let mut long = MemSource::new(
        vec![in alloc; b'a', b'b', b'c', b'd', b'e']?,
        2,
        Vec::new(alloc),
    );
    assert!(rt; matches!(read_all(alloc, &mut long, 3), Err(ReadEnd::TooLong)));
    assert!(rt; long.left() == b"e".as_slice());

    let mut fails = MemSource::new(vec![in alloc; b'a'; 9]?, 1, vec![in alloc; 5]?);
    assert!(rt; matches!(read_all(alloc, &mut fails, 9), Err(ReadEnd::ReadFault)));
    assert!(rt; fails.left().len() == 5);

    let mut sure = SureSource::new(vec![in alloc; b'a', b'b']?, 1);
    assert!(rt; read_all(alloc, &mut sure, 2)?.len() == 2);
    Ok(())
}

#[test]
fn writes_whole(rt: HostRuntime) -> Result<(), Fail> {
    let alloc = rt.alloc();
    let mut whole = MemSink::new(alloc, 3, 2, Vec::new(alloc))?;
    write_whole(&mut whole, b"sat")?;
    assert!(rt; whole.written() == b"sat".as_slice());

    let mut fails = MemSink::new(alloc, 3, 1, vec![in alloc; 2]?)?;
    assert!(rt; write_whole(&mut fails, b"sat").is_err());
    assert!(rt; fails.written() == b"s".as_slice());

    let mut full = MemSink::new(alloc, 2, 3, Vec::new(alloc))?;
    assert!(rt; write_whole(&mut full, b"sat").is_err());
    assert!(rt; full.written() == b"sa".as_slice());

    write_whole(&mut SureSink::new(), b"sat")?;
    Ok(())
}

/// A writer that takes all bytes and can't flush them.
#[derive(Drop)]
struct Unflushed;

impl Write for Unflushed {
    fn write(&mut self, bytes: &[u8]) -> io::Result<usize> {
        Ok(bytes.len())
    }

    fn flush(&mut self) -> io::Result<()> {
        Err(io::Error::from(ErrorKind::Other))
    }
}

#[test]
fn adapts_streams(rt: HostRuntime) -> Result<(), Fail> {
    let alloc = rt.alloc();
    let mut source = StdSource::new(b"ab".as_slice());
    assert!(rt; read_all(alloc, &mut source, 2)?.as_slice() == b"ab".as_slice());

    let mut missing: StdSource<&[u8]> = StdSource::missing();
    assert!(rt; matches!(read_all(alloc, &mut missing, 2), Err(ReadEnd::ReadFault)));

    let mut held = [0u8; 2];
    let mut sink = StdSink::new(held.as_mut_slice());
    assert!(rt; write_whole(&mut sink, b"ab").is_ok());
    assert!(rt; write_whole(&mut sink, b"c").is_err());
    assert!(rt; write_whole(&mut StdSink::new(Unflushed), b"c").is_err());
    Ok(())
}
