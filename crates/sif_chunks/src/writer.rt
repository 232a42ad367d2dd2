// The writer of a file's elements.
ghost use Rattle.std.specs.Prelude.{◌≡◌, OnOk, OnErr};
ghost use Rattle.std.specs.Io.KnownBytes.{append_known};
ghost use Rattle.st_base.specs.Streams.{HasCause, GainsPrefix};
ghost use Rattle.sif_chunks.specs.Split.{doubled};
ghost use Rattle.sif_chunks.specs.Writing.{closing, closed};

use crate::step::run_of;
use st_base::{Failed, Sink, put_all};

/// Writes elements to a sink. It takes no memory. Where the sink fails, it gained a prefix.
pub struct ChunkWriter;

impl ChunkWriter {
    /// Writes the bytes with each bang doubled.
    pub fn piece<K: Sink>(sink: &mut K, bytes: &[u8]) -> Result<(), Failed>
        ensures all { OnOk result (K.written sink.new ≡ append_known (K.written sink.old) (doubled bytes.now)) }
        ensures part { OnErr result (GainsPrefix (K.written sink.old) (K.written sink.new) (doubled bytes.now)) }
        ensures cause { HasCause (K.faults sink.old) (K.faults sink.new) result }
    {
        let mut at = 0;
        while at < bytes.len() {
            let rest = &bytes[at..];
            let run = run_of(rest);
            put_all(sink, &rest[..run])?;
            at += run;
            if run < rest.len() {
                put_all(sink, b"!!")?;
                at += 1;
            }
        }
        Ok(())
    }

    /// Ends an element: writes a bang and byte 10.
    pub fn close<K: Sink>(sink: &mut K) -> Result<(), Failed>
        ensures all { OnOk result (K.written sink.new ≡ append_known (K.written sink.old) closing) }
        ensures part { OnErr result (GainsPrefix (K.written sink.old) (K.written sink.new) closing) }
        ensures cause { HasCause (K.faults sink.old) (K.faults sink.new) result }
    {
        put_all(sink, b"!\n")
    }

    /// Writes an element and its end: its text by `piece`, and then `close`.
    pub fn put<K: Sink>(sink: &mut K, text: &[u8]) -> Result<(), Failed>
        ensures all { OnOk result (K.written sink.new ≡ append_known (K.written sink.old) (closed text.now)) }
        ensures part { OnErr result (GainsPrefix (K.written sink.old) (K.written sink.new) (closed text.now)) }
        ensures cause { HasCause (K.faults sink.old) (K.faults sink.new) result }
    {
        ChunkWriter::piece(sink, text)?;
        ChunkWriter::close(sink)
    }
}
