//! Texts read from sources.
ghost use Rattle.std.specs.Prelude.{◌≡◌, ℕ, List, IfOk, OnOk, IsErrOf};
ghost use Rattle.sexp_read.specs.Outside.{Rose, TakesFront};
ghost use Rattle.check_front.specs.Check.{AreLeft, ReadWhole};
ghost use Rattle.check_front.specs.Texts.{Holds, kept};

use sexp_read::{ReadEnd, Source, read_all};
use std::alloc::Global;

/// A text that was read from a source.
#[derive(Drop)]
pub(crate) enum Text {
    /// All of its bytes.
    Whole(Vec<u8>),
    /// It has more bytes than there may be.
    Long,
}

impl Text {
    /// The bytes that were kept.
    pub(crate) fn bytes(&self) -> &[u8]
        ensures { result.now ≡ kept self.now }
    {
        match self {
            Text::Whole(bytes) => bytes.as_slice(),
            Text::Long => &[],
        }
    }
}

/// Why a source wasn't read.
#[derive(Clone, Copy, Debug, PartialEq, Eq)]
pub(crate) enum Unread {
    Memory,
    Fault,
}

/// The text of a source, which may have so many bytes.
pub(crate) fn read_text<S: Source>(
    alloc: Global,
    source: &mut S,
    most: usize,
) -> Result<Text, Unread>
    ensures text { IfOk result (λ text. (bytes : List ℕ) × AreLeft (S.left source.old) bytes × Holds most text bytes) }
    ensures whole { OnOk result (ReadWhole most (S.left source.old) (S.left source.new)) }
    ensures front { TakesFront most (S.left source.old) (S.left source.new) }
    ensures fault { IsErrOf result Unread.Fault → Rose (S.faults source.old) (S.faults source.new) }
{
    match read_all(alloc, source, most) {
        Ok(bytes) => Ok(Text::Whole(bytes)),
        Err(ReadEnd::TooLong) => Ok(Text::Long),
        Err(ReadEnd::ReadFault) => Err(Unread::Fault),
        Err(ReadEnd::Memory(_)) => Err(Unread::Memory),
    }
}
