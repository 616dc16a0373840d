//! A text written whole and flushed.
ghost use Rattle.std.specs.Prelude.{OnOk};
ghost use Rattle.std.specs.Io.KnownBytes.{Appends};
ghost use Rattle.sexp_read.specs.Outside.{HasCause, AppendsFront, IsFlushed, StaysTold};

use crate::{Failed, Sink};

/// Writes the text whole and flushes it. A failure comes only where the sink's count rose, and then a front
/// of the text is written.
pub fn write_whole<K: Sink>(sink: &mut K, text: &[u8]) -> Result<(), Failed>
    ensures whole { OnOk result (Appends (K.written sink.old) (K.written sink.new) text.now) }
    ensures flushed { OnOk result (IsFlushed (K.written sink.new) (K.flushed sink.new)) }
    ensures front { AppendsFront (K.written sink.old) (K.written sink.new) text.now }
    ensures told { StaysTold (K.flushed sink.old) (K.flushed sink.new) }
    ensures cause { HasCause (K.faults sink.old) (K.faults sink.new) result }
{
    let mut done = 0;
    while done < text.len() {
        done += sink.write(&text[done..])?;
    }
    sink.flush()
}
