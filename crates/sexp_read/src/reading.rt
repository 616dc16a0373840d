//! A source read to its end.
ghost use Rattle.std.specs.Prelude.{◌≡◌, ◌≤◌, length, IfOk, OnOk, IsErrOf, vec_len};
ghost use Rattle.std.specs.Io.KnownBytes.{Consumes, IsAtEnd};
ghost use Rattle.sexp_read.specs.Outside.{Rose, TakesFront, TakesPast};
ghost use Rattle.sexp_read.specs.declared.reading.ReadEnd.TheVariants.{Memory, ReadFault};

use crate::{Failed, Source};
use std::alloc::{AllocError, Global};
use thiserror::Error;

/// Why a source wasn't read whole.
#[derive(Clone, Copy, Debug, PartialEq, Eq, Error)]
pub enum ReadEnd {
    #[error("a read failed")]
    ReadFault,
    #[error("too many bytes")]
    TooLong,
    #[error("out of memory")]
    Memory(AllocError),
}

impl From<AllocError> for ReadEnd {
    ghost from_gives = { λ cause e. e ≡ Memory cause };

    fn from(cause: AllocError) -> ReadEnd {
        ReadEnd::Memory(cause)
    }
}

impl From<Failed> for ReadEnd {
    ghost from_gives = { λ _ e. e ≡ ReadFault };

    fn from(_: Failed) -> ReadEnd {
        ReadEnd::ReadFault
    }
}

const CHUNK: usize = 4096;

/// All bytes of a source that has at most `most` left.
///
/// `ReadFault` comes only where the source's count of faults rose. Else `TooLong` comes exactly where more than
/// `most` bytes are left, and `most + 1` of them are taken then. At any error the source has lost a front of what
/// it had, of at most `most + 1` bytes.
pub fn read_all<S: Source>(alloc: Global, source: &mut S, most: usize) -> Result<Vec<u8>, ReadEnd>
    ensures all { IfOk result (λ bytes. Consumes (S.left source.old) (S.left source.new) bytes.items) }
    ensures end { OnOk result (IsAtEnd (S.left source.new)) }
    ensures bound { IfOk result (λ bytes. vec_len bytes ≤ most) }
    ensures fault { IsErrOf result ReadEnd.ReadFault → Rose (S.faults source.old) (S.faults source.new) }
    ensures past { IsErrOf result ReadEnd.TooLong → TakesPast most (S.left source.old) (S.left source.new) }
    ensures front { TakesFront most (S.left source.old) (S.left source.new) }
    ensures later { S.faults source.old ≤ S.faults source.new }
{
    let mut bytes: Vec<u8> = Vec::new(alloc);
    let mut chunk = [0u8; CHUNK];
    while bytes.len() <= most {
        let room = most - bytes.len();
        let want = if room < CHUNK { room + 1 } else { CHUNK };
        let count = source.read(&mut chunk[..want])?;
        if count == 0 {
            return Ok(bytes);
        }
        bytes.extend_from_slice(&chunk[..count])?;
    }
    Err(ReadEnd::TooLong)
}
