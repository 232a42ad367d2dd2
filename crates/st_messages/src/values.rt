// What a value is: the same as another, a text, an Array, a block.
ghost use Rattle.std.specs.Prelude.{◌≡◌, is_some, length};
ghost use Rattle.st_code.specs.BuiltIns.{array_class};
ghost use Rattle.st_code.specs.Program.{Program};
ghost use Rattle.st_collections.specs.Kinds.{bytes_of, is_a, is_true, same_value, slot_of, slots_of};
ghost use Rattle.st_rules.specs.ExceptionRows.{closure_of};

use crate::built_in::{ARRAY, STRING};
use object_heap::{Closure, Heap, Value};

pub fn is_true(value: Value) -> bool
    ensures { result ≡ is_true value }
{
    match value {
        Value::True => true,
        _ => false,
    }
}

/// Whether two values are identical: Integers and Characters by value.
#[tactic(auto, unfolding(st_collections::specs::Kinds::same_value))]
pub fn is_same(left: Value, right: Value) -> bool
    ensures { result ≡ same_value left right }
{
    match left {
        Value::Nil => match right {
            Value::Nil => true,
            _ => false,
        },
        Value::True => match right {
            Value::True => true,
            _ => false,
        },
        Value::False => match right {
            Value::False => true,
            _ => false,
        },
        Value::Transcript => match right {
            Value::Transcript => true,
            _ => false,
        },
        Value::Integer(number) => match right {
            Value::Integer(other) => number == other,
            _ => false,
        },
        Value::Character(byte) => match right {
            Value::Character(other) => byte == other,
            _ => false,
        },
        Value::Symbol(name) => match right {
            Value::Symbol(other) => name == other,
            _ => false,
        },
        Value::Class(class) => match right {
            Value::Class(other) => class == other,
            _ => false,
        },
        Value::Meta(class) => match right {
            Value::Meta(other) => class == other,
            _ => false,
        },
        Value::Object(object) => match right {
            Value::Object(other) => object == other,
            _ => false,
        },
    }
}

/// Whether a value is a String or a Symbol.
#[tactic(auto, unfolding(st_collections::specs::Kinds::bytes_of))]
pub fn is_text<H: Heap>(heap: &H, value: Value) -> bool
    ensures { (p : Program) → result ≡ is_some (bytes_of p (H.meaning heap.now).store value) }
{
    match value {
        Value::Symbol(_) => true,
        Value::Object(object) => heap.class_of(object) == STRING,
        _ => false,
    }
}

/// Whether a value is an Array.
#[tactic(auto, unfolding(st_collections::specs::Kinds::is_a))]
pub fn is_array<H: Heap>(heap: &H, value: Value) -> bool
    ensures { result ≡ is_a (H.meaning heap.now).store array_class value }
{
    match value {
        Value::Object(object) => heap.class_of(object) == ARRAY,
        _ => false,
    }
}

/// How many slots an object has, none where it is no object.
#[tactic(auto, unfolding(st_collections::specs::Kinds::slots_of))]
pub fn slots_now<H: Heap>(heap: &H, value: Value) -> u32
    ensures { result ≡ length (slots_of (H.meaning heap.now).store value) }
{
    match value {
        Value::Object(object) => heap.length(object),
        _ => 0,
    }
}

/// A slot of an object, and nil past its end or of any other value.
#[tactic(auto, unfolding(st_collections::specs::Kinds::slot_of, st_collections::specs::Kinds::slots_of))]
pub fn slot_now<H: Heap>(heap: &H, value: Value, slot: u32) -> Value
    ensures { result ≡ slot_of (H.meaning heap.now).store value slot }
{
    match value {
        Value::Object(object) => heap.get(object, slot),
        _ => Value::Nil,
    }
}

/// The closure of a block.
#[tactic(auto, unfolding(st_rules::specs::ExceptionRows::closure_of))]
pub fn closure_now<H: Heap>(heap: &H, value: Value) -> Option<Closure>
    ensures { result ≡ closure_of (H.meaning heap.now).store value }
{
    match value {
        Value::Object(object) => heap.closure(object),
        _ => None,
    }
}
