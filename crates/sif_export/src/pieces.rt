// Parts of an element's text on the way out: each bang is written twice.
ghost use Rattle.std.specs.Prelude.{◌≡◌, ◌≢◌, ◌<◌, ◌≤◌, ◌++◌, ℕ, length, slice_index};
ghost use Rattle.st_base.specs.Streams.{HasCause};
ghost use Rattle.sif_export.specs.Words.{Puts, quotes_doubled, quoted};

use memchr::memchr;
use sif_chunks::ChunkWriter;
use st_base::{Failed, Sink};

/// How many bytes stand before the first such byte.
pub(crate) fn run_of(byte: u8, bytes: &[u8]) -> usize
    ensures within { result ≤ length bytes.now }
    ensures plain { (k : ℕ) → k < result → slice_index bytes.now k ≢ byte }
    ensures found { result < length bytes.now → slice_index bytes.now result ≡ byte }
{
    match memchr(byte, bytes) {
        Some(run) => run,
        None => bytes.len(),
    }
}

/// Writes a part of an element's text.
pub(crate) fn piece<K: Sink>(sink: &mut K, bytes: &[u8]) -> Result<(), Failed>
    ensures text { Puts (K.written sink.old) (K.written sink.new) result bytes.now }
    ensures cause { HasCause (K.faults sink.old) (K.faults sink.new) result }
{
    ChunkWriter::piece(sink, bytes)
}

/// Writes two parts.
pub(crate) fn two_pieces<K: Sink>(sink: &mut K, first: &[u8], second: &[u8]) -> Result<(), Failed>
    ensures text { Puts (K.written sink.old) (K.written sink.new) result (first.now ++ second.now) }
    ensures cause { HasCause (K.faults sink.old) (K.faults sink.new) result }
{
    piece(sink, first)?;
    piece(sink, second)
}

/// Writes the bytes, each quote twice.
pub(crate) fn inner_piece<K: Sink>(sink: &mut K, bytes: &[u8]) -> Result<(), Failed>
    ensures text { Puts (K.written sink.old) (K.written sink.new) result (quotes_doubled bytes.now) }
    ensures cause { HasCause (K.faults sink.old) (K.faults sink.new) result }
{
    let mut at = 0;
    while at < bytes.len() {
        let rest = &bytes[at..];
        let run = run_of(b'\'', rest);
        piece(sink, &rest[..run])?;
        at += run;
        if run < rest.len() {
            piece(sink, b"''")?;
            at += 1;
        }
    }
    Ok(())
}

/// Writes the bytes between quotes, each quote twice.
pub(crate) fn quoted_piece<K: Sink>(sink: &mut K, bytes: &[u8]) -> Result<(), Failed>
    ensures text { Puts (K.written sink.old) (K.written sink.new) result (quoted bytes.now) }
    ensures cause { HasCause (K.faults sink.old) (K.faults sink.new) result }
{
    piece(sink, b"'")?;
    inner_piece(sink, bytes)?;
    piece(sink, b"'")
}
