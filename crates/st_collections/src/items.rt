// Where the items of a new collection come from.
ghost use Rattle.std.specs.Prelude.{◌≡◌, ℕ, IsTrue};
ghost use Rattle.object_heap.specs.declared.value.Value.{Value};
ghost use Rattle.st_collections.specs.Answers.{program_of};
ghost use Rattle.st_collections.specs.Items.{cased, item_at, from_bytes, Reads};
ghost use Rattle.st_collections.specs.SequenceRows.{is_byte};
ghost use Rattle.st_code.specs.Texts.{to_upper, to_lower};

use crate::elements::{element_now, key_now, slot_now};
use crate::letters::{lower_of, upper_of};
use object_heap::{Heap, Value};
use st_names::Names;

/// Where the items of a new collection come from.
#[derive(Clone, Copy, Debug)]
pub enum Items {
    /// The elements of a collection, from this index on.
    From(Value, u128),
    /// The elements of a collection, from this index down.
    Backwards(Value, u128),
    /// So many elements of a collection, then those of another.
    Joined(Value, u128, Value),
    /// The keys of a Dictionary.
    Keys(Value),
    /// The values of a Dictionary.
    Values(Value),
    /// The Characters of a text, each letter a capital one.
    Upper(Value),
    /// The Characters of a text, each letter a small one.
    Lower(Value),
    /// This value at each place.
    Repeated(Value),
}

fn upper_value(value: Value) -> Value
    ensures { result ≡ cased to_upper value }
{
    match value {
        Value::Character(byte) => Value::Character(upper_of(byte)),
        _ => value,
    }
}

fn lower_value(value: Value) -> Value
    ensures { result ≡ cased to_lower value }
{
    match value {
        Value::Character(byte) => Value::Character(lower_of(byte)),
        _ => value,
    }
}

/// The item at a place, from 0.
pub fn item_now<H: Heap>(heap: &H, names: &Names, items: Items, place: u32) -> Value
    requires { Reads (program_of names.now) (H.meaning heap.now).store items place }
    ensures item { result ≡ item_at (program_of names.now) (H.meaning heap.now).store items place }
    ensures byte { IsTrue (from_bytes (H.meaning heap.now).store items place) → IsTrue (is_byte result) }
{
    let place = place as u128;
    match items {
        Items::From(value, from) => element_now(heap, names, value, from + place),
        Items::Backwards(value, last) => {
            element_now(heap, names, value, last.saturating_sub(place))
        }
        Items::Joined(value, size, other) => {
            if place < size {
                return element_now(heap, names, value, place + 1);
            }
            element_now(heap, names, other, place - size + 1)
        }
        Items::Keys(value) => key_now(heap, value, place + 1),
        Items::Values(value) => slot_now(heap, value, 2 * place + 1),
        Items::Upper(value) => upper_value(element_now(heap, names, value, place + 1)),
        Items::Lower(value) => lower_value(element_now(heap, names, value, place + 1)),
        Items::Repeated(value) => value,
    }
}
