// Bytes of texts and of objects, as they are or with each quote twice.
ghost use Rattle.std.specs.Prelude.{◌≡◌, ◌∷◌, []};
ghost use Rattle.object_heap.specs.Store.{object_at};
ghost use Rattle.st_base.specs.Streams.{HasCause};
ghost use Rattle.st_code.specs.Texts.{quotes_doubled};
ghost use Rattle.st_transcript.specs.Gained.{Gains};

use object_heap::Heap;
use st_base::{Failed, Sink, put_all};

/// Writes all of the bytes.
pub fn put<K: Sink>(out: &mut K, bytes: &[u8]) -> Result<(), Failed>
    ensures text { Gains (K.written out.old) (K.written out.new) result bytes.now }
    ensures cause { HasCause (K.faults out.old) (K.faults out.new) result }
{
    put_all(out, bytes)
}

// Writes a byte, twice where it is a quote.
#[tactic(auto, unfolding(st_code::specs::Texts::quotes_doubled))]
fn put_doubled_byte<K: Sink>(out: &mut K, byte: u8) -> Result<(), Failed>
    ensures text { Gains (K.written out.old) (K.written out.new) result (quotes_doubled (byte ∷ [])) }
    ensures cause { HasCause (K.faults out.old) (K.faults out.new) result }
{
    if byte == b'\'' {
        return put(out, b"''");
    }
    put(out, &[byte])
}

/// Writes bytes with each quote twice.
pub fn put_doubled<K: Sink>(out: &mut K, bytes: &[u8]) -> Result<(), Failed>
    ensures text { Gains (K.written out.old) (K.written out.new) result (quotes_doubled bytes.now) }
    ensures cause { HasCause (K.faults out.old) (K.faults out.new) result }
{
    for byte in bytes {
        put_doubled_byte(out, *byte)?;
    }
    Ok(())
}

/// Writes the bytes of an object.
pub fn put_bytes_of<H: Heap, K: Sink>(heap: &H, object: u32, out: &mut K) -> Result<(), Failed>
    ensures text { Gains (K.written out.old) (K.written out.new) result (object_at object (H.meaning heap.now).store).bytes }
    ensures cause { HasCause (K.faults out.old) (K.faults out.new) result }
{
    for place in 0..heap.byte_length(object) {
        put(out, &[heap.get_byte(object, place)])?;
    }
    Ok(())
}

/// Writes the bytes of an object with each quote twice.
pub fn put_doubled_of<H: Heap, K: Sink>(heap: &H, object: u32, out: &mut K) -> Result<(), Failed>
    ensures text { Gains (K.written out.old) (K.written out.new) result (quotes_doubled (object_at object (H.meaning heap.now).store).bytes) }
    ensures cause { HasCause (K.faults out.old) (K.faults out.new) result }
{
    for place in 0..heap.byte_length(object) {
        put_doubled_byte(out, heap.get_byte(object, place))?;
    }
    Ok(())
}
