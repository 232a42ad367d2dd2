// What stands at an index of a collection, and in the slots of an object.
ghost use Rattle.std.specs.Prelude.{◌≡◌, ◌+◌, ◌-◌, ◌*◌, ◌<◌, ◌^◌, ℕ, pos, false, get_or, length, IsTrue, IfSome, IsSome};
ghost use Rattle.object_heap.specs.declared.value.Value.{Value};
ghost use Rattle.st_collections.specs.Answers.{program_of};
ghost use Rattle.st_collections.specs.Items.{IsMeasured};
ghost use Rattle.st_collections.specs.Kinds.{is_a, key, size_of, slots_of};
ghost use Rattle.st_loops.specs.Places.{is_lost, number_told, place_at, place_told, unless_lost};

use object_heap::{Heap, Value};
use st_collections::{Built, CollectionMessage, OfSequence, collection_message};
use st_names::Names;

/// What stands at an index of a collection.
#[derive(Clone, Copy, Debug, PartialEq, Eq)]
pub enum Place {
    Element(Value),
    /// The index is below 1 or past the size now.
    Past,
    /// The heap wanted memory.
    OutOfMemory,
}

// What the answer of `at:` says of a place.
fn place_told(answer: Built) -> Place
    ensures { result ≡ place_told answer }
{
    match answer {
        Built::Value(element) => Place::Element(element),
        Built::Trouble(_) => Place::Past,
        Built::IntegerLimit => Place::OutOfMemory,
        Built::Cells { .. } => Place::OutOfMemory,
        Built::OutOfMemory => Place::OutOfMemory,
    }
}

/// The element of a collection at an index from 1, as it is now.
#[tactic(auto, unfolding(st_collections::specs::SequenceRows::sequence_action))]
pub fn place_at<H: Heap>(heap: &mut H, names: &Names, receiver: Value, index: i128) -> Place
    requires { IsMeasured (H.meaning heap.old).store receiver }
    ensures memory { H.meaning heap.new ≡ H.meaning heap.old }
    ensures place { result ≡ unless_lost result result (place_at (program_of names.now) (H.meaning heap.old).store receiver index) }
    ensures reserved { IsTrue H.reserved → is_lost result ≡ false }
    ensures literals { H.literal_room heap.new ≡ H.literal_room heap.old }
{
    let message = CollectionMessage::Sequence(OfSequence::At);
    let index = Value::Integer(index);
    place_told(collection_message(heap, names, message, receiver, &[index]))
}

/// What a slot of a value holds, counted from 0: nil where there is none.
#[tactic(auto, unfolding(st_collections::specs::Kinds::slots_of))]
pub fn slot_now<H: Heap>(heap: &H, value: Value, place: u128) -> Value
    ensures { result ≡ get_or (slots_of (H.meaning heap.now).store value) place Value.Nil }
{
    let Value::Object(object) = value else {
        return Value::Nil;
    };
    if place < heap.length(object) as u128 {
        return heap.get(object, place as u32);
    }
    Value::Nil
}

/// How many slots a value has.
#[tactic(auto, unfolding(st_collections::specs::Kinds::slots_of))]
pub fn slots_now<H: Heap>(heap: &H, value: Value) -> u32
    ensures { result ≡ length (slots_of (H.meaning heap.now).store value) }
{
    match value {
        Value::Object(object) => heap.length(object),
        _ => 0,
    }
}

/// A key of a Dictionary, by its index from 1.
#[tactic(auto, unfolding(st_collections::specs::Kinds::key, st_collections::specs::Kinds::slot_of))]
pub fn key_now<H: Heap>(heap: &H, value: Value, index: u128) -> Value
    requires { 2 * index < 2 ^ 128 }
    ensures { result ≡ key (H.meaning heap.now).store value index }
{
    slot_now(heap, value, (2 * index).saturating_sub(2))
}

/// Whether a value is an object of this class.
#[tactic(auto, unfolding(st_collections::specs::Kinds::is_a))]
pub fn is_of_class<H: Heap>(heap: &H, class: u32, value: Value) -> bool
    ensures { result ≡ is_a (H.meaning heap.now).store class value }
{
    match value {
        Value::Object(object) => heap.class_of(object) == class,
        _ => false,
    }
}

// The number that an answer is.
fn number_told(answer: Built) -> Option<i128>
    ensures { result ≡ number_told answer }
{
    match answer {
        Built::Value(Value::Integer(number)) => Some(number),
        _ => None,
    }
}

/// How many elements a collection has now, or None where the heap wanted memory.
pub fn size_now<H: Heap>(heap: &mut H, names: &Names, receiver: Value) -> Option<i128>
    requires { IsMeasured (H.meaning heap.old).store receiver }
    ensures memory { H.meaning heap.new ≡ H.meaning heap.old }
    ensures size { IfSome result (λ n. n ≡ pos (size_of (program_of names.now) (H.meaning heap.old).store receiver)) }
    ensures reserved { IsTrue H.reserved → IsSome result }
    ensures literals { H.literal_room heap.new ≡ H.literal_room heap.old }
{
    let message = CollectionMessage::Sequence(OfSequence::Size);
    number_told(collection_message(heap, names, message, receiver, &[]))
}
