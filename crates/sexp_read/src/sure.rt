//! A source and a sink that never fail.
ghost use Rattle.std.specs.Prelude.{◌≡◌, ◌<◌, ◌≤◌, None, Some, Ok, [], length, take, min, IfOk};
ghost use Rattle.std.specs.Io.{ReadsAtMost, WritesAtMost};
ghost use Rattle.std.specs.Io.KnownBytes.{ReadConsumes, WriteAppends};
ghost use Rattle.sexp_read.specs.Outside.{HasCause, StaysTold};

use crate::{Failed, Sink, Source};

/// A source over bytes that takes at most `piece` bytes a call.
#[derive(Drop)]
pub struct SureSource {
    bytes: Vec<u8>,
    taken: usize,
    piece: usize,
    ghost inside: { taken ≤ length bytes.items },
    ghost moves: { 0 < piece },
}

impl SureSource {
    ghost use Rattle.sexp_read.specs.Sure.{sure_left, sure_piece};

    /// A source over these bytes.
    pub fn new(bytes: Vec<u8>, piece: usize) -> SureSource
        requires { 0 < piece }
        ensures left { sure_left result ≡ bytes.items }
        ensures piece { sure_piece result ≡ piece }
    {
        SureSource {
            bytes,
            taken: 0,
            piece,
        }
    }
}

impl Source for SureSource {
    ghost use Rattle.std.specs.Prelude.{Some};
    ghost use Rattle.sexp_read.specs.Sure.{sure_left, sure_piece};

    ghost left = { λ s. Some (sure_left s) };

    ghost faults = { λ _. 0 };

    fn read(&mut self, into: &mut [u8]) -> Result<usize, Failed>
        ensures bound { ReadsAtMost result into.new }
        ensures bytes { ReadConsumes (Some (sure_left self.old)) (Some (sure_left self.new)) result into.new }
        ensures cause { HasCause 0 0 result }
        ensures count { result ≡ Ok (min (min (length into.old) (sure_piece self.old)) (length (sure_left self.old))) }
        ensures piece { sure_piece self.new ≡ sure_piece self.old }
    {
        let count = give(&self.bytes[self.taken..], self.piece, into);
        self.taken += count;
        Ok(count)
    }
}

/// A sink that takes every piece whole and keeps none.
#[derive(Drop)]
pub struct SureSink;

impl SureSink {
    /// A sink that keeps no byte.
    pub fn new() -> SureSink {
        SureSink
    }
}

impl Sink for SureSink {
    ghost use Rattle.std.specs.Prelude.{None};

    ghost written = { λ _. None };

    ghost flushed = { λ _. None };

    ghost faults = { λ _. 0 };

    fn write(&mut self, piece: &[u8]) -> Result<usize, Failed>
        ensures bound { WritesAtMost result piece.now }
        ensures progress { IfOk result (λ count. 0 < length piece.now → 0 < count) }
        ensures bytes { WriteAppends None None result piece.now }
        ensures told { StaysTold None None }
        ensures cause { HasCause 0 0 result }
        ensures whole { result ≡ Ok (length piece.now) }
    {
        Ok(piece.len())
    }

    fn flush(&mut self) -> Result<(), Failed> {
        Ok(())
    }
}

/// Copies a front into a place, as much as there is and has room, at most a piece.
pub fn give(from: &[u8], piece: usize, into: &mut [u8]) -> usize
    requires { 0 < piece }
    ensures from { result ≤ length from.now }
    ensures room { result ≤ length into.new }
    ensures bytes { take result into.new ≡ take result from.now }
    ensures none { result ≡ 0 → 0 < length into.new → from.now ≡ [] }
    ensures count { result ≡ min (min (length into.old) piece) (length from.now) }
{
    let count = into.len().min(piece).min(from.len());
    into[..count].copy_from_slice(&from[..count]);
    count
}
