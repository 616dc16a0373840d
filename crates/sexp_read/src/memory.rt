//! A source and a sink over memory, in pieces, that fail at listed calls.
ghost use Rattle.std.specs.Prelude.{◌≡◌, ◌≤◌, ◌<◌, ◌-◌, ◌^◌, ◌↔◌, ℕ, Some, [], length, take, drop, min, vec_capacity, Contains, IsErr, IfOk, OnOk};
ghost use Rattle.std.specs.Io.{ReadsAtMost, WritesAtMost};
ghost use Rattle.std.specs.Io.KnownBytes.{ReadConsumes, WriteAppends, Keeps};
ghost use Rattle.sexp_read.specs.Outside.{HasCause, IsFlushed, StaysTold};

use crate::sure::give;
use crate::{Failed, Sink, Source};
use std::alloc::{AllocError, Global};

/// A source over bytes that takes at most `piece` bytes a call, and fails at the calls whose numbers are listed,
/// counted from 1.
#[derive(Drop)]
pub struct MemSource {
    bytes: Vec<u8>,
    taken: usize,
    piece: usize,
    failing: Vec<u64>,
    calls: u64,
    faults: u64,
    ghost inside: { taken ≤ length bytes.items },
    ghost moves: { 0 < piece },
}

impl MemSource {
    ghost use Rattle.sexp_read.specs.Memory.{left_of, read_faults_of, reads_of, read_piece_of, failing_reads_of};

    /// A source over these bytes, of which no call was made.
    pub fn new(bytes: Vec<u8>, piece: usize, failing: Vec<u64>) -> MemSource
        requires { 0 < piece }
        ensures left { left_of result ≡ bytes.items }
        ensures piece { read_piece_of result ≡ piece }
        ensures failing { failing_reads_of result ≡ failing.items }
        ensures calls { reads_of result ≡ 0 }
        ensures faults { read_faults_of result ≡ 0 }
    {
        MemSource {
            bytes,
            taken: 0,
            piece,
            failing,
            calls: 0,
            faults: 0,
        }
    }

    /// The bytes left.
    pub fn left(&self) -> &[u8]
        ensures { result.now ≡ left_of self.now }
    {
        &self.bytes[self.taken..]
    }
}

impl Source for MemSource {
    ghost use Rattle.std.specs.Prelude.{Some};
    ghost use Rattle.sexp_read.specs.Memory.{left_of, read_faults_of, reads_of, read_piece_of, failing_reads_of, CountsRead};

    ghost left = { λ s. Some (left_of s) };

    ghost faults = { read_faults_of };

    fn read(&mut self, into: &mut [u8]) -> Result<usize, Failed>
        ensures bound { ReadsAtMost result into.new }
        ensures bytes { ReadConsumes (Some (left_of self.old)) (Some (left_of self.new)) result into.new }
        ensures cause { HasCause (read_faults_of self.old) (read_faults_of self.new) result }
        ensures count { IfOk result (λ count. count ≡ min (min (length into.old) (read_piece_of self.old)) (length (left_of self.old))) }
        ensures fails { IsErr result ↔ Contains (failing_reads_of self.old) (reads_of self.new) }
        ensures calls { CountsRead self.old self.new }
    {
        self.calls = self.calls.saturating_add(1);
        if self.failing.contains(&self.calls) {
            self.faults = self.faults.saturating_add(1);
            return Err(Failed);
        }
        let count = give(&self.bytes[self.taken..], self.piece, into);
        self.taken += count;
        Ok(count)
    }
}

/// A sink that keeps its bytes, takes at most `piece` bytes a call and only those that have room, and fails at the
/// calls whose numbers are listed, counted from 1.
#[derive(Drop)]
pub struct MemSink {
    bytes: Vec<u8>,
    room: usize,
    flushed: usize,
    piece: usize,
    failing: Vec<u64>,
    calls: u64,
    faults: u64,
    ghost moves: { 0 < piece },
    ghost filled: { length bytes.items ≤ room },
    ghost reserved: { room ≤ vec_capacity bytes },
}

impl MemSink {
    ghost use Rattle.sexp_read.specs.Memory.{written_of, flushed_of, write_faults_of, writes_of, room_of, write_piece_of, failing_writes_of};

    /// A sink that has taken its room, and of which no call was made.
    pub fn new(
        alloc: Global,
        room: usize,
        piece: usize,
        failing: Vec<u64>,
    ) -> Result<MemSink, AllocError>
        requires { 0 < piece }
        ensures written { IfOk result (λ sink. written_of sink ≡ []) }
        ensures flushed { IfOk result (λ sink. flushed_of sink ≡ 0) }
        ensures room { IfOk result (λ sink. room_of sink ≡ room) }
        ensures piece { IfOk result (λ sink. write_piece_of sink ≡ piece) }
        ensures failing { IfOk result (λ sink. failing_writes_of sink ≡ failing.items) }
        ensures calls { IfOk result (λ sink. writes_of sink ≡ 0) }
        ensures faults { IfOk result (λ sink. write_faults_of sink ≡ 0) }
    {
        Ok(MemSink {
            bytes: Vec::with_capacity(alloc, room)?,
            room,
            flushed: 0,
            piece,
            failing,
            calls: 0,
            faults: 0,
        })
    }

    /// The bytes written.
    pub fn written(&self) -> &[u8]
        ensures { result.now ≡ written_of self.now }
    {
        &self.bytes
    }
}

impl Sink for MemSink {
    ghost use Rattle.std.specs.Prelude.{Some};
    ghost use Rattle.sexp_read.specs.Memory.{written_of, flushed_of, write_faults_of, writes_of, failing_writes_of, taken_of, CountsWrite, FailsWrite};

    ghost written = { λ s. Some (written_of s) };

    ghost flushed = { λ s. Some (flushed_of s) };

    ghost faults = { write_faults_of };

    fn write(&mut self, piece: &[u8]) -> Result<usize, Failed>
        ensures bound { WritesAtMost result piece.now }
        ensures progress { IfOk result (λ count. 0 < length piece.now → 0 < count) }
        ensures bytes { WriteAppends (Some (written_of self.old)) (Some (written_of self.new)) result piece.now }
        ensures told { StaysTold (Some (flushed_of self.old)) (Some (flushed_of self.new)) }
        ensures cause { HasCause (write_faults_of self.old) (write_faults_of self.new) result }
        ensures count { IfOk result (λ count. count ≡ taken_of self.old piece.now) }
        ensures fails { IsErr result ↔ FailsWrite self.old (writes_of self.new) piece.now }
        ensures flushed { flushed_of self.new ≡ flushed_of self.old }
        ensures calls { CountsWrite self.old self.new }
    {
        self.calls = self.calls.saturating_add(1);
        let room = self.room - self.bytes.len();
        let count = piece.len().min(self.piece).min(room);
        let listed = self.failing.contains(&self.calls);
        if listed || count < piece.len().min(1) {
            self.faults = self.faults.saturating_add(1);
            return Err(Failed);
        }
        self.bytes.extend_from_slice(&piece[..count]).unwrap();
        Ok(count)
    }

    fn flush(&mut self) -> Result<(), Failed>
        ensures bytes { Keeps (Some (written_of self.old)) (Some (written_of self.new)) }
        ensures flushed { OnOk result (IsFlushed (Some (written_of self.new)) (Some (flushed_of self.new))) }
        ensures told { StaysTold (Some (flushed_of self.old)) (Some (flushed_of self.new)) }
        ensures cause { HasCause (write_faults_of self.old) (write_faults_of self.new) result }
        ensures fails { IsErr result ↔ Contains (failing_writes_of self.old) (writes_of self.new) }
        ensures calls { CountsWrite self.old self.new }
    {
        self.calls = self.calls.saturating_add(1);
        if self.failing.contains(&self.calls) {
            self.faults = self.faults.saturating_add(1);
            return Err(Failed);
        }
        self.flushed = self.bytes.len();
        Ok(())
    }
}
