// New objects: the charge first, then what they hold.
ghost use Rattle.std.specs.Prelude.{◌≡◌, ℕ, ◌+◌, [], ◌<◌, ◌^◌, false, ◌||◌, IsTrue, OnOk, replicate, nat_eq};
ghost use Rattle.object_heap.specs.declared.value.Value.{Value};
ghost use Rattle.object_heap.specs.Store.{object_added};
ghost use Rattle.object_heap.specs.Charges.{charged, if_out, ran_out, with_store};
ghost use Rattle.st_code.specs.BuiltIns.{byte_array_class, string_class};
ghost use Rattle.st_collections.specs.Actions.{makes_slots, new_object};
ghost use Rattle.st_collections.specs.Answers.{program_of, allot_answer, answer_of, memory_of, is_out, told, unless_out};
ghost use Rattle.st_collections.specs.Items.{item_at, items_of, is_byte_item, item_written, Reads, sequence_charge, sequence_object};
ghost use Rattle.st_collections.specs.SequenceRows.{byte_in, is_byte, makes_sequence};

use crate::answer::{Built, answer_stop};
use crate::characters::byte_of;
use crate::classes::{BYTE_ARRAY, STRING};
use crate::items::{Items, item_now};
use object_heap::{Heap, HeapStop, Value};
use st_names::Names;

// The byte that an Integer is.
fn byte_of_integer(value: Value) -> u8
    requires { IsTrue (is_byte value) }
    ensures { result ≡ byte_in value }
{
    match value {
        Value::Integer(number @ 0..=255) => number as u8,
        _ => unreachable!(),
    }
}

// Whether the items of the class's objects are bytes.
fn holds_bytes(class: u32) -> bool
    ensures { result ≡ (nat_eq class string_class || nat_eq class byte_array_class) }
{
    class == STRING || class == BYTE_ARRAY
}

// The cells of an object of so many items, as a charge is told.
fn charge_of(class: u32, count: u128) -> u128
    ensures { result ≡ told (sequence_charge class count) }
{
    if holds_bytes(class) {
        return count / 16 + (count % 16 + 15) / 16 + 1;
    }
    count.saturating_add(1)
}

// A new object for so many items, which are nil, or 0 in a String or ByteArray.
fn blank<H: Heap>(heap: &mut H, class: u32, count: u128) -> Result<u32, HeapStop>
    ensures made { H.meaning heap.new ≡ if_out result (H.meaning heap.old) (charged (sequence_charge class count) (object_added (sequence_object class (replicate count Value.Nil)) (H.meaning heap.old).store) (H.meaning heap.old)) }
    ensures answer { result ≡ if_out result result (allot_answer (sequence_charge class count) (H.meaning heap.old)) }
    ensures fits { OnOk result (count < 2 ^ 32) }
    ensures reserved { IsTrue H.reserved → ran_out result ≡ false }
    ensures literals { H.literal_room heap.new ≡ H.literal_room heap.old }
{
    let charge = charge_of(class, count);
    let used = heap.used();
    if charge > heap.limit() as u128 {
        return Err(HeapStop::Limit { used, charge });
    }
    if holds_bytes(class) {
        return heap.make(class, 0, count as u32);
    }
    heap.make(class, count as u32, 0)
}

// Writes an item into a new object.
fn put_item<H: Heap>(heap: &mut H, class: u32, object: u32, place: u32, value: Value)
    requires { class ≡ byte_array_class → IsTrue (is_byte value) }
    ensures written { H.meaning heap.new ≡ with_store (item_written class object place value (H.meaning heap.old).store) (H.meaning heap.old) }
    ensures literals { H.literal_room heap.new ≡ H.literal_room heap.old }
{
    if class == STRING {
        heap.put_byte(object, place, byte_of(value));
    } else if class == BYTE_ARRAY {
        heap.put_byte(object, place, byte_of_integer(value));
    } else {
        heap.put(object, place, value);
    }
}

/// A new object of so many items.
pub fn new_items<H: Heap>(
    heap: &mut H,
    names: &Names,
    class: u32,
    items: Items,
    count: u128,
) -> Built
    requires reads { (k : ℕ) → k < count → Reads (program_of names.now) (H.meaning heap.old).store items k }
    requires bytes { class ≡ byte_array_class → (k : ℕ) → k < count → IsTrue (is_byte_item (program_of names.now) (H.meaning heap.old).store items k) }
    ensures memory { H.meaning heap.new ≡ unless_out result (H.meaning heap.old) (memory_of (makes_sequence class (items_of (program_of names.now) (H.meaning heap.old).store items count) (H.meaning heap.old).store) (H.meaning heap.old)) }
    ensures answer { result ≡ unless_out result result (answer_of (makes_sequence class (items_of (program_of names.now) (H.meaning heap.old).store items count) (H.meaning heap.old).store) (H.meaning heap.old)) }
    ensures reserved { IsTrue H.reserved → is_out result ≡ false }
    ensures literals { H.literal_room heap.new ≡ H.literal_room heap.old }
{
    let object = match blank(heap, class, count) {
        Ok(object) => object,
        Err(stop) => return answer_stop(stop),
    };
    for place in 0..count as u32 {
        let value = item_now(heap, names, items, place);
        put_item(heap, class, object, place, value);
    }
    Built::Value(Value::Object(object))
}

// A new object of so many slots, each nil.
fn blank_slots<H: Heap>(heap: &mut H, class: u32, count: u128) -> Result<u32, HeapStop>
    ensures made { H.meaning heap.new ≡ if_out result (H.meaning heap.old) (charged (1 + count) (object_added (new_object class (replicate count Value.Nil) []) (H.meaning heap.old).store) (H.meaning heap.old)) }
    ensures answer { result ≡ if_out result result (allot_answer (1 + count) (H.meaning heap.old)) }
    ensures fits { OnOk result (count < 2 ^ 32) }
    ensures reserved { IsTrue H.reserved → ran_out result ≡ false }
    ensures literals { H.literal_room heap.new ≡ H.literal_room heap.old }
{
    let charge = count.saturating_add(1);
    let used = heap.used();
    if charge > heap.limit() as u128 {
        return Err(HeapStop::Limit { used, charge });
    }
    heap.make(class, count as u32, 0)
}

/// A new object of these values.
pub fn new_values<H: Heap>(heap: &mut H, class: u32, values: &[Value]) -> Built
    ensures memory { H.meaning heap.new ≡ unless_out result (H.meaning heap.old) (memory_of (makes_slots class values.now (H.meaning heap.old).store) (H.meaning heap.old)) }
    ensures answer { result ≡ unless_out result result (answer_of (makes_slots class values.now (H.meaning heap.old).store) (H.meaning heap.old)) }
    ensures reserved { IsTrue H.reserved → is_out result ≡ false }
    ensures literals { H.literal_room heap.new ≡ H.literal_room heap.old }
{
    let object = match blank_slots(heap, class, values.len() as u128) {
        Ok(object) => object,
        Err(stop) => return answer_stop(stop),
    };
    for place in 0..values.len() {
        let value = values[place];
        heap.put(object, place as u32, value);
    }
    Built::Value(Value::Object(object))
}
