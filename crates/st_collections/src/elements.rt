// The size and the elements of a collection as it is now.
ghost use Rattle.std.specs.Prelude.{◌≡◌, ◌↔◌, ℕ, ◌+◌, ◌-◌, ◌<◌, ◌≤◌, ◌^◌, ◌*◌, IsTrue, get_or, length};
ghost use Rattle.object_heap.specs.declared.value.Value.{Value};
ghost use Rattle.object_heap.specs.Store.{object_at};
ghost use Rattle.st_code.specs.BuiltIns.{byte_array_class, interval_class};
ghost use Rattle.st_code.specs.Program.{name_at};
ghost use Rattle.st_collections.specs.Answers.{program_of};
ghost use Rattle.st_collections.specs.Items.{IsMeasured, is_measured};
ghost use Rattle.st_collections.specs.Kinds.{integer_of, is_a, size_at, size_of, element_at, element, key, slot_of, slots_of};
ghost use Rattle.st_collections.specs.SequenceRows.{is_byte};

use crate::classes::{BYTE_ARRAY, DICTIONARY, INTERVAL, STRING};
use crate::intervals::{has_few_elements, interval_element, interval_length};
use object_heap::{Heap, Value};
use st_names::Names;

/// The text of a symbol, empty where there is no such symbol.
#[tactic(auto, unfolding(st_code::specs::Program::name_at))]
pub fn name_of(names: &Names, name: u32) -> &[u8]
    ensures { result.now ≡ name_at (program_of names.now) name }
{
    if name < names.len() {
        return names.text(name);
    }
    &[]
}

/// A byte of a symbol's text, and 0 past its end.
pub fn byte_of_name(names: &Names, name: u32, place: u128) -> u8
    ensures { result ≡ get_or (name_at (program_of names.now) name) place 0 }
{
    let text = name_of(names, name);
    if place < text.len() as u128 {
        return text[place as usize];
    }
    0
}

/// A byte of an object, and 0 past its end.
pub fn byte_of_object<H: Heap>(heap: &H, object: u32, place: u128) -> u8
    ensures { result ≡ get_or (object_at object (H.meaning heap.now).store).bytes place 0 }
{
    if place < heap.byte_length(object) as u128 {
        return heap.get_byte(object, place as u32);
    }
    0
}

/// A slot of an object, and nil past its end.
pub fn slot_of_object<H: Heap>(heap: &H, object: u32, place: u128) -> Value
    ensures { result ≡ get_or (object_at object (H.meaning heap.now).store).slots place Value.Nil }
{
    if place < heap.length(object) as u128 {
        return heap.get(object, place as u32);
    }
    Value::Nil
}

/// The integer in a slot of an object, and 0 where there is none.
pub fn integer_of_object<H: Heap>(heap: &H, object: u32, place: u128) -> i128
    ensures { result ≡ integer_of (get_or (object_at object (H.meaning heap.now).store).slots place Value.Nil) }
{
    match slot_of_object(heap, object, place) {
        Value::Integer(number) => number,
        _ => 0,
    }
}

// How many elements an object has.
fn size_of_object<H: Heap>(heap: &H, object: u32) -> u128
    requires { IsMeasured (H.meaning heap.now).store (Value.Object object) }
    ensures size { let o = object_at object (H.meaning heap.now).store in result ≡ size_at o.class o.slots o.bytes }
    ensures bound { result < 2 ^ 127 }
{
    let class = heap.class_of(object);
    if class == STRING || class == BYTE_ARRAY {
        return heap.byte_length(object) as u128;
    }
    if class == DICTIONARY {
        return heap.length(object) as u128 / 2;
    }
    if class == INTERVAL {
        return interval_length(
            integer_of_object(heap, object, 0),
            integer_of_object(heap, object, 1),
            integer_of_object(heap, object, 2),
        );
    }
    heap.length(object) as u128
}

/// How many elements a collection has. What is no collection has none.
#[tactic(auto, unfolding(crate::specs::Kinds::size_of))]
pub fn size_now<H: Heap>(heap: &H, names: &Names, value: Value) -> u128
    requires { IsMeasured (H.meaning heap.now).store value }
    ensures size { result ≡ size_of (program_of names.now) (H.meaning heap.now).store value }
    ensures bound { result < 2 ^ 127 }
{
    match value {
        Value::Symbol(name) => name_of(names, name).len() as u128,
        Value::Object(object) => size_of_object(heap, object),
        _ => 0,
    }
}

// An element of an object, by its place from 0.
fn element_of_object<H: Heap>(heap: &H, object: u32, place: u128) -> Value
    requires bound { let o = object_at object (H.meaning heap.now).store in size_at o.class o.slots o.bytes < 2 ^ 127 }
    requires within { let o = object_at object (H.meaning heap.now).store in place ≤ size_at o.class o.slots o.bytes - 1 }
    ensures element { let o = object_at object (H.meaning heap.now).store in result ≡ element_at o.class o.slots o.bytes place }
    ensures byte { (object_at object (H.meaning heap.now).store).class ≡ byte_array_class → IsTrue (is_byte result) }
{
    let class = heap.class_of(object);
    if class == STRING {
        return Value::Character(byte_of_object(heap, object, place));
    }
    if class == BYTE_ARRAY {
        return Value::Integer(byte_of_object(heap, object, place) as i128);
    }
    if class == DICTIONARY {
        return slot_of_object(heap, object, 2 * place + 1);
    }
    if class == INTERVAL {
        let start = integer_of_object(heap, object, 0);
        let stop = integer_of_object(heap, object, 1);
        let by = integer_of_object(heap, object, 2);
        return Value::Integer(interval_element(start, stop, by, place));
    }
    slot_of_object(heap, object, place)
}

/// An element of a collection, by its index from 1. That of a Dictionary is the value there.
#[tactic(auto, unfolding(crate::specs::Kinds::size_of, crate::specs::Kinds::element, crate::specs::Kinds::is_a))]
pub fn element_now<H: Heap>(heap: &H, names: &Names, value: Value, index: u128) -> Value
    requires bound { size_of (program_of names.now) (H.meaning heap.now).store value < 2 ^ 127 }
    requires within { index ≤ size_of (program_of names.now) (H.meaning heap.now).store value }
    ensures element { result ≡ element (program_of names.now) (H.meaning heap.now).store value index }
    ensures byte { IsTrue (is_a (H.meaning heap.now).store byte_array_class value) → IsTrue (is_byte result) }
{
    let place = index.saturating_sub(1);
    match value {
        Value::Symbol(name) => Value::Character(byte_of_name(names, name, place)),
        Value::Object(object) => element_of_object(heap, object, place),
        _ => Value::Nil,
    }
}

/// A key of a Dictionary, by its index from 1.
#[tactic(auto, unfolding(crate::specs::Kinds::key, crate::specs::Kinds::slot_of, crate::specs::Kinds::slots_of))]
pub fn key_now<H: Heap>(heap: &H, value: Value, index: u128) -> Value
    requires { 2 * index < 2 ^ 128 }
    ensures { result ≡ key (H.meaning heap.now).store value index }
{
    match value {
        Value::Object(object) => slot_of_object(heap, object, (2 * index).saturating_sub(2)),
        _ => Value::Nil,
    }
}

/// A slot of an object, by its place from 0, and nil past its end or of any other value.
#[tactic(auto, unfolding(crate::specs::Kinds::slot_of, crate::specs::Kinds::slots_of))]
pub fn slot_now<H: Heap>(heap: &H, value: Value, place: u128) -> Value
    ensures { result ≡ slot_of (H.meaning heap.now).store value place }
{
    match value {
        Value::Object(object) => slot_of_object(heap, object, place),
        _ => Value::Nil,
    }
}

/// How many slots an object has, none where it is no object.
#[tactic(auto, unfolding(crate::specs::Kinds::slots_of))]
pub fn slots_now<H: Heap>(heap: &H, value: Value) -> u32
    ensures { result ≡ length (slots_of (H.meaning heap.now).store value) }
{
    match value {
        Value::Object(object) => heap.length(object),
        _ => 0,
    }
}

/// Whether a value is no Interval of 2^127 elements or more.
#[tactic(auto, unfolding(crate::specs::Items::is_measured))]
pub fn is_measured<H: Heap>(heap: &H, value: Value) -> bool
    ensures test { result ≡ is_measured (H.meaning heap.now).store value }
    ensures measured { IsTrue result ↔ IsMeasured (H.meaning heap.now).store value }
{
    match value {
        Value::Object(object) => {
            if heap.class_of(object) != INTERVAL {
                return true;
            }
            has_few_elements(
                integer_of_object(heap, object, 0),
                integer_of_object(heap, object, 1),
                integer_of_object(heap, object, 2),
            )
        }
        _ => true,
    }
}
