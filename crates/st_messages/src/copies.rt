// Copies of objects, one level deep.
ghost use Rattle.std.specs.Prelude.{◌≡◌, false, IsTrue};
ghost use Rattle.object_heap.specs.Store.{block_added, closure_at, object_at};
ghost use Rattle.st_collections.specs.Actions.{Makes, next_object};
ghost use Rattle.st_collections.specs.Answers.{answer_of, is_out, memory_of, unless_out};
ghost use Rattle.st_collections.specs.ObjectRows.{copied};

use crate::makers::{answer_stop, blank};
use crate::pieces::put_bytes_of;
use crate::slots::put_slots_of;
use object_heap::{Closure, Heap, Value};
use st_collections::Built;

// A new block of a closure.
fn new_block<H: Heap>(heap: &mut H, class: u32, closure: Closure) -> Built
    ensures memory { H.meaning heap.new ≡ unless_out result (H.meaning heap.old) (memory_of (Makes 2 (block_added class closure (H.meaning heap.old).store) (next_object (H.meaning heap.old).store)) (H.meaning heap.old)) }
    ensures answer { result ≡ unless_out result result (answer_of (Makes 2 (block_added class closure (H.meaning heap.old).store) (next_object (H.meaning heap.old).store)) (H.meaning heap.old)) }
    ensures reserved { IsTrue H.reserved → is_out result ≡ false }
    ensures literals { H.literal_room heap.new ≡ H.literal_room heap.old }
{
    match heap.make_closure(class, closure) {
        Ok(block) => Built::Value(Value::Object(block)),
        Err(stop) => answer_stop(stop),
    }
}

// A new object of the slots and bytes of another.
fn new_likeness<H: Heap>(heap: &mut H, object: u32) -> Built
    ensures memory { H.meaning heap.new ≡ unless_out result (H.meaning heap.old) (memory_of (copied (H.meaning heap.old).store (object_at object (H.meaning heap.old).store) None) (H.meaning heap.old)) }
    ensures answer { result ≡ unless_out result result (answer_of (copied (H.meaning heap.old).store (object_at object (H.meaning heap.old).store) None) (H.meaning heap.old)) }
    ensures reserved { IsTrue H.reserved → is_out result ≡ false }
    ensures literals { H.literal_room heap.new ≡ H.literal_room heap.old }
{
    let class = heap.class_of(object);
    let slots = heap.length(object);
    let bytes = heap.byte_length(object);
    let copy = match blank(heap, class, slots as u128, bytes as u128) {
        Ok(copy) => copy,
        Err(stop) => return answer_stop(stop),
    };
    put_slots_of(heap, copy, 0, object, slots);
    put_bytes_of(heap, copy, 0, object);
    Built::Value(Value::Object(copy))
}

/// A copy of an object. That of a block is a new block with the same closure.
pub fn new_copy<H: Heap>(heap: &mut H, object: u32) -> Built
    ensures memory { let s = (H.meaning heap.old).store in H.meaning heap.new ≡ unless_out result (H.meaning heap.old) (memory_of (copied s (object_at object s) (closure_at object s)) (H.meaning heap.old)) }
    ensures answer { let s = (H.meaning heap.old).store in result ≡ unless_out result result (answer_of (copied s (object_at object s) (closure_at object s)) (H.meaning heap.old)) }
    ensures reserved { IsTrue H.reserved → is_out result ≡ false }
    ensures literals { H.literal_room heap.new ≡ H.literal_room heap.old }
{
    match heap.closure(object) {
        Some(closure) => {
            let class = heap.class_of(object);
            new_block(heap, class, closure)
        }
        None => new_likeness(heap, object),
    }
}
