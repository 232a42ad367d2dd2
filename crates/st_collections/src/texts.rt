// Strings and Symbols: what text they have, and how texts are ordered.
ghost use Rattle.std.specs.Prelude.{◌≡◌, ℕ, ◌<◌, ◌^◌, get_or, length, is_some};
ghost use Rattle.st_code.specs.Program.{Program};
ghost use Rattle.st_code.specs.Texts.{same_text, text_less};
ghost use Rattle.st_collections.specs.Answers.{program_of};
ghost use Rattle.st_collections.specs.Kinds.{bytes_of};
ghost use Rattle.st_collections.specs.Orders.{folded, folded_byte, text_of, text_order};

use crate::classes::STRING;
use crate::elements::{byte_of_name, byte_of_object, name_of};
use crate::letters::lower_of;
use object_heap::{Heap, Value};
use st_names::Names;
use std::cmp::Ordering;

/// How letters are compared.
#[derive(Clone, Copy, Debug)]
pub enum Folding {
    Exact,
    /// Capital letters as small ones.
    Small,
}

/// Whether a value is a String or a Symbol.
#[tactic(auto, unfolding(crate::specs::Kinds::bytes_of))]
pub fn is_text<H: Heap>(heap: &H, value: Value) -> bool
    ensures { (p : Program) → result ≡ is_some (bytes_of p (H.meaning heap.now).store value) }
{
    match value {
        Value::Symbol(_) => true,
        Value::Object(object) => heap.class_of(object) == STRING,
        _ => false,
    }
}

/// How many bytes a text has.
#[tactic(auto, unfolding(crate::specs::Kinds::bytes_of))]
pub fn text_length<H: Heap>(heap: &H, names: &Names, value: Value) -> u64
    ensures { result ≡ length (text_of (program_of names.now) (H.meaning heap.now).store value) }
{
    match value {
        Value::Symbol(name) => name_of(names, name).len() as u64,
        Value::Object(object) => {
            if heap.class_of(object) == STRING {
                return heap.byte_length(object) as u64;
            }
            0
        }
        _ => 0,
    }
}

// A byte of a text, by its place from 0, and 0 past its end.
#[tactic(auto, unfolding(crate::specs::Kinds::bytes_of))]
fn text_byte<H: Heap>(heap: &H, names: &Names, value: Value, place: u64) -> u8
    ensures { result ≡ get_or (text_of (program_of names.now) (H.meaning heap.now).store value) place 0 }
{
    match value {
        Value::Symbol(name) => byte_of_name(names, name, place as u128),
        Value::Object(object) => {
            if heap.class_of(object) == STRING {
                return byte_of_object(heap, object, place as u128);
            }
            0
        }
        _ => 0,
    }
}

// A byte as it is compared.
fn compared_byte(folding: Folding, byte: u8) -> u8
    ensures { result ≡ folded_byte folding byte }
{
    match folding {
        Folding::Exact => byte,
        Folding::Small => lower_of(byte),
    }
}

// Which of two texts comes first. What is no text is an empty one.
fn order_of<H: Heap>(
    heap: &H,
    names: &Names,
    left: Value,
    right: Value,
    folding: Folding,
) -> Ordering
    ensures { let text = text_of (program_of names.now) (H.meaning heap.now).store in result ≡ text_order (folded folding (text left)) (folded folding (text right)) }
{
    let length = text_length(heap, names, left);
    let other = text_length(heap, names, right);
    for place in 0..length.min(other) {
        let byte = compared_byte(folding, text_byte(heap, names, left, place));
        let against = compared_byte(folding, text_byte(heap, names, right, place));
        if byte < against {
            return Ordering::Less;
        }
        if against < byte {
            return Ordering::Greater;
        }
    }
    if length < other {
        return Ordering::Less;
    }
    if other < length {
        return Ordering::Greater;
    }
    Ordering::Equal
}

/// Whether the first text comes before the second.
pub fn precedes<H: Heap>(heap: &H, names: &Names, left: Value, right: Value) -> bool
    ensures { let text = text_of (program_of names.now) (H.meaning heap.now).store in result ≡ text_less (text left) (text right) }
{
    let order = order_of(heap, names, left, right, Folding::Exact);
    order.is_lt()
}

/// Whether two texts are the same.
pub fn is_same<H: Heap>(
    heap: &H,
    names: &Names,
    left: Value,
    right: Value,
    folding: Folding,
) -> bool
    ensures { let text = text_of (program_of names.now) (H.meaning heap.now).store in result ≡ same_text (folded folding (text left)) (folded folding (text right)) }
{
    let order = order_of(heap, names, left, right, folding);
    order.is_eq()
}
