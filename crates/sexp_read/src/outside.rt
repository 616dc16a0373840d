//! A source and a sink, by what they have left, what they were given, and how often they failed.
ghost use Rattle.std.specs.Prelude.{◌<◌, ℕ, List, Option, length, IfOk, OnOk};
ghost use Rattle.std.specs.Io.{ReadsAtMost, WritesAtMost};
ghost use Rattle.std.specs.Io.KnownBytes.{ReadConsumes, WriteAppends, Keeps};
ghost use Rattle.sexp_read.specs.Outside.{HasCause, IsFlushed, StaysTold};

/// A call of a source or a sink failed, and it has counted that.
#[derive(Clone, Copy, Debug, PartialEq, Eq)]
pub struct Failed;

/// Where bytes come from, in pieces.
pub trait Source {
    /// The bytes that are left, where it tells them.
    ghost left: { Self → Option (List ℕ) };

    /// How often it has failed.
    ghost faults: { Self → ℕ };

    /// Takes bytes from the front of what is left, as many as it answers, and puts them at the front of `into`.
    /// None, with room for some, is the end of input. A failed read takes none.
    fn read(&mut self, into: &mut [u8]) -> Result<usize, Failed>
        ensures bound { ReadsAtMost result into.new }
        ensures bytes { ReadConsumes (left self.old) (left self.new) result into.new }
        ensures cause { HasCause (faults self.old) (faults self.new) result };
}

/// Where bytes go, in pieces.
pub trait Sink {
    /// The bytes written, where it tells them.
    ghost written: { Self → Option (List ℕ) };

    /// How many of them are flushed, where it tells this.
    ghost flushed: { Self → Option ℕ };

    /// How often it has failed.
    ghost faults: { Self → ℕ };

    /// Takes a front of the piece, as long as it answers, at least a byte where there is one. A failed write takes
    /// none.
    fn write(&mut self, piece: &[u8]) -> Result<usize, Failed>
        ensures bound { WritesAtMost result piece.now }
        ensures progress { IfOk result (λ count. 0 < length piece.now → 0 < count) }
        ensures bytes { WriteAppends (written self.old) (written self.new) result piece.now }
        ensures told { StaysTold (flushed self.old) (flushed self.new) }
        ensures cause { HasCause (faults self.old) (faults self.new) result };

    /// Flushes all bytes written.
    fn flush(&mut self) -> Result<(), Failed>
        ensures bytes { Keeps (written self.old) (written self.new) }
        ensures flushed { OnOk result (IsFlushed (written self.new) (flushed self.new)) }
        ensures told { StaysTold (flushed self.old) (flushed self.new) }
        ensures cause { HasCause (faults self.old) (faults self.new) result };
}
