// What stands at an index of a collection, where that is read in place.
ghost use Rattle.std.specs.Prelude.{◌≡◌, pos, ◌+ℤ◌, ◌-ℤ◌, ◌*ℤ◌, get_or, IfSome};
ghost use Rattle.object_heap.specs.Store.{object_at, slot_at};
ghost use Rattle.st_code.specs.Program.{Program};
ghost use Rattle.st_collections.specs.Kinds.{integer_of};
ghost use Rattle.st_sprint.specs.Places.{IsPlace, IsSlot, IsByte, IsStep, has_slots};

use crate::counts::{integer_of, is_past};
use object_heap::{Heap, Value};

const STRING: u32 = 9;

const ARRAY: u32 = 11;

const ORDERED_COLLECTION: u32 = 13;

const SET: u32 = 14;

const INTERVAL: u32 = 16;

/// What stands at an index of a collection.
#[derive(Clone, Copy, Debug, PartialEq, Eq)]
pub enum Place {
    Element(Value),
    /// The index is below 1 or past the size now.
    Past,
    /// It isn't read in place.
    Unread,
}

// Whether the elements of an object of this class are its slots.
fn has_slots(class: u32) -> bool
    ensures { result ≡ has_slots class }
{
    class == ARRAY || class == ORDERED_COLLECTION || class == SET
}

// The slot at an index from 1.
fn slot_place<H: Heap>(heap: &H, object: u32, index: i128) -> Place
    ensures { IsSlot (object_at object (H.meaning heap.now).store).slots index result }
{
    if index < 1 || index > heap.length(object) as i128 {
        return Place::Past;
    }
    Place::Element(heap.get(object, (index - 1) as u32))
}

// The Character of the byte at an index from 1.
fn byte_place<H: Heap>(heap: &H, object: u32, index: i128) -> Place
    ensures { IsByte (object_at object (H.meaning heap.now).store).bytes index result }
{
    if index < 1 || index > heap.byte_length(object) as i128 {
        return Place::Past;
    }
    let byte = heap.get_byte(object, (index - 1) as u32);
    Place::Element(Value::Character(byte))
}

// The number at an index from 1 of those from `start` on by this step, where it is one of this
// machine.
fn number_at(start: i128, by: i128, index: i128) -> Option<i128>
    ensures { IfSome result (λ n. n ≡ start +ℤ (index -ℤ pos 1) *ℤ by) }
{
    match index.checked_sub(1) {
        Some(place) => match place.checked_mul(by) {
            Some(distance) => start.checked_add(distance),
            None => None,
        },
        None => None,
    }
}

// The number at an index from 1 of those that go by a step up to a stop, or down to it.
fn step_place(start: i128, stop: i128, by: i128, index: i128) -> Place
    ensures { IsStep start stop by index result }
{
    if index < 1 {
        return Place::Past;
    }
    if by == 0 {
        return Place::Unread;
    }
    match number_at(start, by, index) {
        Some(number) => {
            if is_past(by, number, stop) {
                return Place::Past;
            }
            Place::Element(Value::Integer(number))
        }
        None => Place::Unread,
    }
}

// The number of a slot from 0.
fn slot_number<H: Heap>(heap: &H, object: u32, slot: u32) -> i128
    ensures { result ≡ integer_of (slot_at object slot (H.meaning heap.now).store) }
{
    integer_of(heap.get(object, slot))
}

// The element of an Interval at an index from 1.
fn interval_place<H: Heap>(heap: &H, object: u32, index: i128) -> Place
    ensures { let s = (H.meaning heap.now).store in IsStep (integer_of (slot_at object 0 s)) (integer_of (slot_at object 1 s)) (integer_of (slot_at object 2 s)) index result }
{
    let start = slot_number(heap, object, 0);
    let stop = slot_number(heap, object, 1);
    step_place(start, stop, slot_number(heap, object, 2), index)
}

// What stands at an index of an object.
fn object_place<H: Heap>(heap: &H, object: u32, index: i128) -> Place
    ensures { (p : Program) → IsPlace p (H.meaning heap.now).store (Value.Object object) index result }
{
    let class = heap.class_of(object);
    if has_slots(class) {
        return slot_place(heap, object, index);
    }
    if class == STRING {
        return byte_place(heap, object, index);
    }
    if class == INTERVAL {
        return interval_place(heap, object, index);
    }
    Place::Unread
}

/// What stands at an index of a collection.
pub fn place_in<H: Heap>(heap: &H, receiver: Value, index: i128) -> Place
    ensures { (p : Program) → IsPlace p (H.meaning heap.now).store receiver index result }
{
    match receiver {
        Value::Object(object) => object_place(heap, object, index),
        _ => Place::Unread,
    }
}
