//! Texts at the limits: terms 4,096 deep, and 2,048 splits in one another.
use crate::whole::again;
use std::alloc::{AllocError, Global};
use std::test::Fail;

/// A text in which `not` stands before a name until the term is so deep.
fn deep(alloc: Global, depth: u32) -> Result<Vec<u8>, AllocError> {
    let mut text = format!(in alloc; "tacert 1 1 1\n. bool p\n")?;
    for line in 1..depth {
        text.push_str(format!(in alloc; ". not #{}\n", line)?.as_str())?;
    }
    text.push_str(format!(in alloc; "rw 1 #{}\nfalse 2\nend\n", depth)?.as_str())?;
    Ok(text.into_bytes())
}

/// A text in which so many splits stand in one another.
fn nested(alloc: Global, count: u32) -> Result<Vec<u8>, AllocError> {
    let mut text = format!(in alloc; "tacert 1 1 1\n")?;
    for _ in 0..count {
        text.push_str("split 1 1\n")?;
    }
    text.push_str("false 2\nend\n")?;
    Ok(text.into_bytes())
}

/// The line that is told of a text, 0 where it is read and written again as it was.
fn told(alloc: Global, text: &[u8]) -> Result<u32, AllocError> {
    match again(alloc, text)? {
        Ok(written) => Ok(if written.as_slice() == text {
            0
        } else {
            u32::MAX
        }),
        Err(line) => Ok(line),
    }
}

#[test]
fn depths(rt: HostRuntime) -> Result<(), Fail> {
    let alloc = rt.alloc();
    assert_eq!(&rt; told(alloc, deep(alloc, 4_096)?.as_slice())?, 0);
    assert_eq!(&rt; told(alloc, deep(alloc, 4_097)?.as_slice())?, 4_098);
    Ok(())
}

#[test]
fn splits(rt: HostRuntime) -> Result<(), Fail> {
    let alloc = rt.alloc();
    assert_eq!(&rt; told(alloc, nested(alloc, 2_048)?.as_slice())?, 0);
    assert_eq!(&rt; told(alloc, nested(alloc, 2_049)?.as_slice())?, 2_050);
    Ok(())
}
