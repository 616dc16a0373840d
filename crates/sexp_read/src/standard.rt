//! The standard streams and files as a source and a sink. They tell nothing of their bytes.
ghost use Rattle.std.specs.Prelude.{◌≡◌, ◌<◌, None, length, true, false, IsErr, IfOk, OnOk};
ghost use Rattle.std.specs.Io.{ReadsAtMost, WritesAtMost};
ghost use Rattle.std.specs.Io.KnownBytes.{ReadConsumes};
ghost use Rattle.sexp_read.specs.Outside.{HasCause};

use crate::{Failed, Sink, Source};
use std::io::{Read, Write};

/// A reader whose faults are counted, or one that could not be opened, which fails at each read.
#[derive(Drop)]
pub struct StdSource<R: Drop> {
    inner: Option<R>,
    faults: u64,
}

impl<R: Read + Drop> StdSource<R> {
    ghost use Rattle.sexp_read.specs.Standard.{is_opened, source_faults};

    /// A source over a reader.
    pub fn new(reader: R) -> StdSource<R>
        ensures opened { is_opened result ≡ true }
        ensures faults { source_faults result ≡ 0 }
    {
        StdSource {
            inner: Some(reader),
            faults: 0,
        }
    }

    /// A source that could not be opened.
    pub fn missing() -> StdSource<R>
        ensures opened { is_opened result ≡ false }
        ensures faults { source_faults result ≡ 0 }
    {
        StdSource {
            inner: None,
            faults: 0,
        }
    }
}

impl<R: Read + Drop> Source for StdSource<R> {
    ghost use Rattle.std.specs.Prelude.{None};
    ghost use Rattle.sexp_read.specs.Standard.{is_opened, source_faults};

    ghost left = { λ _. None };

    ghost faults = { source_faults };

    fn read(&mut self, into: &mut [u8]) -> Result<usize, Failed>
        ensures bound { ReadsAtMost result into.new }
        ensures bytes { ReadConsumes None None result into.new }
        ensures cause { HasCause (source_faults self.old) (source_faults self.new) result }
        ensures missing { is_opened self.old ≡ false → IsErr result }
        ensures opened { is_opened self.new ≡ is_opened self.old }
    {
        if let Some(reader) = &mut self.inner {
            if let Ok(count) = reader.read(into) {
                return Ok(count);
            }
        }
        self.faults = self.faults.saturating_add(1);
        Err(Failed)
    }
}

/// A writer whose faults are counted.
#[derive(Drop)]
pub struct StdSink<W: Drop> {
    inner: W,
    faults: u64,
}

impl<W: Write + Drop> StdSink<W> {
    ghost use Rattle.sexp_read.specs.Standard.{sink_faults};

    /// A sink over a writer.
    pub fn new(writer: W) -> StdSink<W>
        ensures { sink_faults result ≡ 0 }
    {
        StdSink {
            inner: writer,
            faults: 0,
        }
    }
}

impl<W: Write + Drop> Sink for StdSink<W> {
    ghost use Rattle.std.specs.Prelude.{None};
    ghost use Rattle.sexp_read.specs.Standard.{sink_faults};

    ghost written = { λ _. None };

    ghost flushed = { λ _. None };

    ghost faults = { sink_faults };

    fn write(&mut self, piece: &[u8]) -> Result<usize, Failed> {
        match self.inner.write(piece) {
            Ok(count) if count > 0 || piece.is_empty() => Ok(count),
            _ => {
                self.faults = self.faults.saturating_add(1);
                Err(Failed)
            }
        }
    }

    fn flush(&mut self) -> Result<(), Failed> {
        match self.inner.flush() {
            Ok(()) => Ok(()),
            Err(_) => {
                self.faults = self.faults.saturating_add(1);
                Err(Failed)
            }
        }
    }
}
