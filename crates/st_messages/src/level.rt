// Where the lookup of a receiver begins, and its class.
ghost use Rattle.std.specs.Prelude.{◌≡◌};
ghost use Rattle.st_code.specs.Lookup.{class_of, level_of};
ghost use Rattle.program_image.specs.declared.table.Side.{Side};
ghost use Rattle.st_messages.specs.Levels.{seen_level};

use crate::built_in::{
    CHARACTER, FALSE, INTEGER, METACLASS, SYMBOL, TRANSCRIPT_WRITER, TRUE, UNDEFINED_OBJECT,
};
use object_heap::{Heap, Value};
use program_image::Side;

/// A class on a side.
#[derive(Clone, Copy, Debug, PartialEq, Eq)]
pub struct Level {
    pub side: Side,
    pub class: u32,
}

fn instance(class: u32) -> Level
    ensures { result ≡ record { side = Side.Instance; class = class } }
{
    Level {
        side: Side::Instance,
        class,
    }
}

/// Where the lookup of a receiver begins.
#[tactic(auto, unfolding(st_code::specs::Lookup::level_of))]
pub(crate) fn level_now<H: Heap>(heap: &H, receiver: Value) -> Level
    ensures { seen_level result ≡ level_of (H.meaning heap.now).store receiver }
{
    match receiver {
        Value::Nil => instance(UNDEFINED_OBJECT),
        Value::True => instance(TRUE),
        Value::False => instance(FALSE),
        Value::Integer(_) => instance(INTEGER),
        Value::Character(_) => instance(CHARACTER),
        Value::Symbol(_) => instance(SYMBOL),
        Value::Class(class) => Level {
            side: Side::Class,
            class,
        },
        Value::Meta(class) => Level {
            side: Side::Meta,
            class,
        },
        Value::Transcript => instance(TRANSCRIPT_WRITER),
        Value::Object(object) => instance(heap.class_of(object)),
    }
}

/// What `class` answers.
#[tactic(auto, unfolding(st_code::specs::Lookup::class_of, st_code::specs::Lookup::level_of))]
pub(crate) fn class_now<H: Heap>(heap: &H, receiver: Value) -> Value
    ensures { result ≡ class_of (H.meaning heap.now).store receiver }
{
    match receiver {
        Value::Nil => Value::Class(UNDEFINED_OBJECT),
        Value::True => Value::Class(TRUE),
        Value::False => Value::Class(FALSE),
        Value::Integer(_) => Value::Class(INTEGER),
        Value::Character(_) => Value::Class(CHARACTER),
        Value::Symbol(_) => Value::Class(SYMBOL),
        Value::Class(class) => Value::Meta(class),
        Value::Meta(_) => Value::Class(METACLASS),
        Value::Transcript => Value::Class(TRANSCRIPT_WRITER),
        Value::Object(object) => Value::Class(heap.class_of(object)),
    }
}
