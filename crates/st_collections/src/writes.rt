// Writes into objects that stand.
ghost use Rattle.std.specs.Prelude.{◌≡◌, ℕ, false, IsTrue};
ghost use Rattle.object_heap.specs.Charges.{with_store};
ghost use Rattle.object_heap.specs.Store.{object_at, with_byte, with_slot};
ghost use Rattle.st_collections.specs.Answers.{answer_of, memory_of, is_out, unless_out};
ghost use Rattle.st_collections.specs.SequenceRows.{written};

use crate::answer::Built;
use crate::classes::{BYTE_ARRAY, STRING};
use object_heap::{Heap, Trouble, Value};

// Writes a slot, unless it is past the last one.
fn put_at<H: Heap>(heap: &mut H, object: u32, place: u128, value: Value)
    ensures written { H.meaning heap.new ≡ with_store (with_slot object place value (H.meaning heap.old).store) (H.meaning heap.old) }
    ensures literals { H.literal_room heap.new ≡ H.literal_room heap.old }
{
    if place < heap.length(object) as u128 {
        heap.put(object, place as u32, value);
    }
}

// Writes a byte, unless it is past the last one.
fn put_byte_at<H: Heap>(heap: &mut H, object: u32, place: u128, byte: u8)
    ensures written { H.meaning heap.new ≡ with_store (with_byte object place byte (H.meaning heap.old).store) (H.meaning heap.old) }
    ensures literals { H.literal_room heap.new ≡ H.literal_room heap.old }
{
    if place < heap.byte_length(object) as u128 {
        heap.put_byte(object, place as u32, byte);
    }
}

/// Writes an element by its place from 0, and answers it.
pub fn write_at<H: Heap>(heap: &mut H, object: u32, place: u128, value: Value) -> Built
    ensures memory { H.meaning heap.new ≡ unless_out result (H.meaning heap.old) (memory_of (written (H.meaning heap.old).store object (object_at object (H.meaning heap.old).store).class place value) (H.meaning heap.old)) }
    ensures answer { result ≡ unless_out result result (answer_of (written (H.meaning heap.old).store object (object_at object (H.meaning heap.old).store).class place value) (H.meaning heap.old)) }
    ensures reserved { IsTrue H.reserved → is_out result ≡ false }
    ensures literals { H.literal_room heap.new ≡ H.literal_room heap.old }
{
    let class = heap.class_of(object);
    if class == STRING {
        return match value {
            Value::Character(byte) => {
                put_byte_at(heap, object, place, byte);
                Built::Value(value)
            }
            _ => Built::Trouble(Trouble::CharacterExpected),
        };
    }
    if class == BYTE_ARRAY {
        return match value {
            Value::Integer(byte @ 0..=255) => {
                put_byte_at(heap, object, place, byte as u8);
                Built::Value(value)
            }
            _ => Built::Trouble(Trouble::ByteExpected),
        };
    }
    put_at(heap, object, place, value);
    Built::Value(value)
}
