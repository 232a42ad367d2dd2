// What a loop asks of its receiver and of what it keeps, as tests.
ghost use Rattle.std.specs.Prelude.{◌≡◌, IsTrue};
ghost use Rattle.st_collections.specs.Items.{IsMeasured};
ghost use Rattle.st_loops.specs.Kinds.{message_of};
ghost use Rattle.st_loops.specs.Requests.{HasElements, HasGathered, HasPairs, HasRoom, IsKept, IsReceiver};
ghost use Rattle.st_loops.specs.States.{state_of};
ghost use Rattle.st_loops.specs.Tests.{has_elements, has_gathered, has_pairs, has_room, may_begin, may_change, may_keep};

use crate::classes::{DICTIONARY, ORDERED_COLLECTION};
use crate::counts::integer_of;
use crate::kind::LoopKind;
use crate::state::LoopState;
use object_heap::{Heap, Value};
use st_collections::is_measured;

// Whether a value is no object, or one that has room for its slots. What is no object has class 0.
fn has_room<H: Heap>(heap: &H, value: Value) -> bool
    ensures test { result ≡ has_room (H.meaning heap.now).store value }
    ensures holds { IsTrue result → HasRoom (H.meaning heap.now).store value }
{
    match value {
        Value::Object(object) => {
            heap.class_of(object) != 0 && heap.length(object) <= heap.capacity(object)
        }
        _ => true,
    }
}

// The same, where the slots come one by one.
fn has_elements<H: Heap>(heap: &H, value: Value) -> bool
    ensures test { result ≡ has_elements (H.meaning heap.now).store value }
    ensures holds { IsTrue result → HasElements (H.meaning heap.now).store value }
{
    match value {
        Value::Object(object) => {
            heap.class_of(object) != DICTIONARY && has_room(heap, Value::Object(object))
        }
        _ => true,
    }
}

// The same, where they come in pairs.
fn has_pairs<H: Heap>(heap: &H, value: Value) -> bool
    ensures test { result ≡ has_pairs (H.meaning heap.now).store value }
    ensures holds { IsTrue result → HasPairs (H.meaning heap.now).store value }
{
    match value {
        Value::Object(object) => {
            heap.class_of(object) == DICTIONARY
                && heap.length(object) % 2 == 0
                && heap.capacity(object) % 2 == 0
                && has_room(heap, Value::Object(object))
        }
        _ => true,
    }
}

// Whether a value is no object, or an OrderedCollection as it stands.
fn has_gathered<H: Heap>(heap: &H, value: Value) -> bool
    ensures test { result ≡ has_gathered (H.meaning heap.now).store value }
    ensures holds { IsTrue result → HasGathered (H.meaning heap.now).store value }
{
    match value {
        Value::Object(object) => {
            heap.class_of(object) == ORDERED_COLLECTION && has_room(heap, Value::Object(object))
        }
        _ => true,
    }
}

// Whether a collection that a message changes is one as it stands.
fn may_change<H: Heap>(heap: &H, kind: LoopKind, value: Value) -> bool
    ensures test { result ≡ may_change (H.meaning heap.now).store (message_of kind) value }
    ensures holds { IsTrue result → IsReceiver (H.meaning heap.now).store (message_of kind) value }
{
    match kind {
        LoopKind::AddToSet => has_elements(heap, value),
        LoopKind::AtPut | LoopKind::AtIfAbsentPut => has_pairs(heap, value),
        LoopKind::Remove
        | LoopKind::RemoveIfAbsent
        | LoopKind::RemoveKey
        | LoopKind::RemoveKeyIfAbsent => has_room(heap, value),
        _ => true,
    }
}

/// Whether a value may be the receiver of a loop: it is no Interval of 2^127 elements or more, and
/// a collection that the message changes has room for what it holds.
pub fn is_receiver<H: Heap>(heap: &H, kind: LoopKind, value: Value) -> bool
    ensures test { result ≡ may_begin (H.meaning heap.now).store (message_of kind) value }
    ensures measured { IsTrue result → IsMeasured (H.meaning heap.now).store value }
    ensures changes { IsTrue result → IsReceiver (H.meaning heap.now).store (message_of kind) value }
{
    is_measured(heap, value) && may_change(heap, kind, value)
}

/// Whether a loop may go on from this state: the collection that it makes is an OrderedCollection
/// that has room for what it holds, and what it counted is below its index.
pub fn is_kept<H: Heap>(heap: &H, state: LoopState) -> bool
    ensures test { result ≡ may_keep (H.meaning heap.now).store (message_of state.kind) (state_of state) }
    ensures holds { IsTrue result → IsKept (H.meaning heap.now).store (message_of state.kind) (state_of state) }
{
    match state.kind {
        LoopKind::Collect | LoopKind::Select | LoopKind::Reject => has_gathered(heap, state.made),
        LoopKind::OccurrencesOf => integer_of(state.made) < state.index,
        _ => true,
    }
}
