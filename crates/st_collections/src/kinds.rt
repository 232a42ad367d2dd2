// What kind of value an argument is.
ghost use Rattle.std.specs.Prelude.{◌≡◌, ℕ, ◌<◌, ◌^◌};
ghost use Rattle.object_heap.specs.declared.trouble.Trouble.{Trouble};
ghost use Rattle.st_collections.specs.Answers.{program_of};
ghost use Rattle.st_collections.specs.Items.{all_of_kind, is_of_kind};
ghost use Rattle.st_collections.specs.Kinds.{elements, is_collection, is_sequence, is_sequence_class, size_of, species};
ghost use Rattle.st_collections.specs.SequenceRows.{element_trouble};

use crate::classes::{
    ARRAY, BYTE_ARRAY, DICTIONARY, INTERVAL, ORDERED_COLLECTION, SET, STRING, SYMBOL,
};
use crate::elements::element_now;
use object_heap::{Heap, Trouble, Value};
use st_names::Names;

/// What all elements of a collection may have to be.
#[derive(Clone, Copy, Debug)]
pub enum ElementKind {
    Character,
    Byte,
}

fn is_sequence_number(class: u32) -> bool
    ensures { result ≡ is_sequence_class class }
{
    class == STRING
        || class == SYMBOL
        || class == ARRAY
        || class == BYTE_ARRAY
        || class == ORDERED_COLLECTION
        || class == INTERVAL
}

/// Whether a value is a String, Symbol, Array, ByteArray, OrderedCollection or Interval.
#[tactic(auto, unfolding(crate::specs::Kinds::is_sequence))]
pub fn is_sequence_now<H: Heap>(heap: &H, value: Value) -> bool
    ensures { result ≡ is_sequence (H.meaning heap.now).store value }
{
    match value {
        Value::Symbol(_) => true,
        Value::Object(object) => is_sequence_number(heap.class_of(object)),
        _ => false,
    }
}

/// Whether a value is one of these, or a Set or Dictionary.
#[tactic(auto, unfolding(crate::specs::Kinds::is_collection, crate::specs::Kinds::is_sequence, crate::specs::Kinds::is_a))]
pub fn is_collection_now<H: Heap>(heap: &H, value: Value) -> bool
    ensures { result ≡ is_collection (H.meaning heap.now).store value }
{
    match value {
        Value::Symbol(_) => true,
        Value::Object(object) => {
            let class = heap.class_of(object);
            is_sequence_number(class) || class == SET || class == DICTIONARY
        }
        _ => false,
    }
}

/// The class of a part of a collection.
#[tactic(auto, unfolding(crate::specs::Kinds::species))]
pub fn species_now<H: Heap>(heap: &H, value: Value) -> u32
    ensures { result ≡ species (H.meaning heap.now).store value }
{
    match value {
        Value::Object(object) => {
            let class = heap.class_of(object);
            if class == INTERVAL { ARRAY } else { class }
        }
        _ => STRING,
    }
}

fn is_kind(kind: ElementKind, value: Value) -> bool
    ensures { result ≡ is_of_kind kind value }
{
    match (kind, value) {
        (ElementKind::Character, Value::Character(_)) => true,
        (ElementKind::Byte, Value::Integer(0..=255)) => true,
        _ => false,
    }
}

// Whether all elements of a collection are of a kind.
fn all_are<H: Heap>(heap: &H, names: &Names, kind: ElementKind, value: Value, size: u128) -> bool
    requires size { size ≡ size_of (program_of names.now) (H.meaning heap.now).store value }
    requires bound { size < 2 ^ 127 }
    ensures { result ≡ all_of_kind kind (elements (program_of names.now) (H.meaning heap.now).store value) }
{
    let mut index = 1;
    while index <= size {
        if !is_kind(kind, element_now(heap, names, value, index)) {
            return false;
        }
        index += 1;
    }
    true
}

/// The trouble with a collection's elements as those of this class.
pub fn trouble_with<H: Heap>(
    heap: &H,
    names: &Names,
    class: u32,
    value: Value,
    size: u128,
) -> Option<Trouble>
    requires size { size ≡ size_of (program_of names.now) (H.meaning heap.now).store value }
    requires bound { size < 2 ^ 127 }
    ensures { result ≡ element_trouble class (elements (program_of names.now) (H.meaning heap.now).store value) }
{
    if class == STRING {
        if all_are(heap, names, ElementKind::Character, value, size) {
            return None;
        }
        return Some(Trouble::CharacterExpected);
    }
    if class == BYTE_ARRAY {
        if all_are(heap, names, ElementKind::Byte, value, size) {
            return None;
        }
        return Some(Trouble::ByteExpected);
    }
    None
}
