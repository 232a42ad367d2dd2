// New objects of what a loop gathered.
ghost use Rattle.std.specs.Prelude.{◌≡◌, ◌+◌, [], map, replicate, false, length, IsTrue};
ghost use Rattle.object_heap.specs.declared.value.Value.{Value};
ghost use Rattle.object_heap.specs.Charges.{charged, if_out, object_charge, ran_out};
ghost use Rattle.object_heap.specs.Store.{object_added};
ghost use Rattle.st_code.specs.BuiltIns.{string_class};
ghost use Rattle.st_collections.specs.Actions.{Charges, Finishes, new_object, next_object, with_new};
ghost use Rattle.st_collections.specs.Answers.{allot_answer};
ghost use Rattle.st_collections.specs.Kinds.{slots_of};
ghost use Rattle.st_collections.specs.TextRows.{byte_of};
ghost use Rattle.st_loops.specs.Steps.{Out, is_out, memory_after, seen, told_of, unless_out};

use crate::classes::STRING;
use crate::places::{slot_now, slots_now};
use crate::step::{LoopStep, step_stop};
use object_heap::{Heap, HeapStop, Value};

// The byte of a Character, and 0 of any other value.
fn byte_of(value: Value) -> u8
    ensures { result ≡ byte_of value }
{
    match value {
        Value::Character(byte) => byte,
        _ => 0,
    }
}

// A new object of so many slots, each nil.
fn blank_slots<H: Heap>(heap: &mut H, class: u32, count: u32) -> Result<u32, HeapStop>
    ensures made { let m = H.meaning heap.old in H.meaning heap.new ≡ if_out result m (charged (1 + count) (object_added (new_object class (replicate count Value.Nil) []) m.store) m) }
    ensures answer { result ≡ if_out result result (allot_answer (1 + count) (H.meaning heap.old)) }
    ensures reserved { IsTrue H.reserved → ran_out result ≡ false }
    ensures literals { H.literal_room heap.new ≡ H.literal_room heap.old }
{
    heap.make(class, count, 0)
}

// A new String of so many bytes, each 0.
fn blank_string<H: Heap>(heap: &mut H, count: u32) -> Result<u32, HeapStop>
    ensures made { let m = H.meaning heap.old in H.meaning heap.new ≡ if_out result m (charged (object_charge 0 count) (object_added (new_object string_class [] (map byte_of (replicate count Value.Nil))) m.store) m) }
    ensures answer { result ≡ if_out result result (allot_answer (object_charge 0 count) (H.meaning heap.old)) }
    ensures reserved { IsTrue H.reserved → ran_out result ≡ false }
    ensures literals { H.literal_room heap.new ≡ H.literal_room heap.old }
{
    heap.make(STRING, 0, count)
}

/// A new object of the slots of a collection.
pub fn turn_into<H: Heap>(heap: &mut H, class: u32, made: Value) -> LoopStep
    ensures memory { let m = H.meaning heap.old in let items = slots_of m.store made in H.meaning heap.new ≡ unless_out (seen result) m (memory_after (Charges (1 + length items) (with_new class items [] m.store) (Finishes (next_object m.store))) m) }
    ensures step { let m = H.meaning heap.old in let items = slots_of m.store made in seen result ≡ unless_out (seen result) Out (told_of (Charges (1 + length items) (with_new class items [] m.store) (Finishes (next_object m.store))) m) }
    ensures reserved { IsTrue H.reserved → is_out (seen result) ≡ false }
    ensures literals { H.literal_room heap.new ≡ H.literal_room heap.old }
{
    let count = slots_now(heap, made);
    let object = match blank_slots(heap, class, count) {
        Ok(object) => object,
        Err(stop) => return step_stop(stop),
    };
    for place in 0..count {
        let value = slot_now(heap, made, place as u128);
        heap.put(object, place, value);
    }
    LoopStep::Answer(Value::Object(object))
}

/// A new String of the Characters of a collection.
pub fn turn_into_string<H: Heap>(heap: &mut H, made: Value) -> LoopStep
    ensures memory { let m = H.meaning heap.old in let items = slots_of m.store made in H.meaning heap.new ≡ unless_out (seen result) m (memory_after (Charges (object_charge 0 (length items)) (with_new string_class [] (map byte_of items) m.store) (Finishes (next_object m.store))) m) }
    ensures step { let m = H.meaning heap.old in let items = slots_of m.store made in seen result ≡ unless_out (seen result) Out (told_of (Charges (object_charge 0 (length items)) (with_new string_class [] (map byte_of items) m.store) (Finishes (next_object m.store))) m) }
    ensures reserved { IsTrue H.reserved → is_out (seen result) ≡ false }
    ensures literals { H.literal_room heap.new ≡ H.literal_room heap.old }
{
    let count = slots_now(heap, made);
    let object = match blank_string(heap, count) {
        Ok(object) => object,
        Err(stop) => return step_stop(stop),
    };
    for place in 0..count {
        let value = slot_now(heap, made, place as u128);
        heap.put_byte(object, place, byte_of(value));
    }
    LoopStep::Answer(Value::Object(object))
}
