// What a receiver finds for a selector, whatever value the receiver is.
ghost use Rattle.std.specs.Prelude.{◌≡◌, ◌<◌, length};
ghost use Rattle.std.specs.Option.{option_map};
ghost use Rattle.st_code.specs.Program.{number_of};
ghost use Rattle.st_code.specs.Lookup as code;
ghost use Rattle.program_image.specs.Images.{image_names, image_program, on_side, as_row};
ghost use Rattle.signal_env.specs.Own.{IsSelector};

use object_heap::{Heap, Value};
use program_image::{Found, Image, Side};

const UNDEFINED_OBJECT: u32 = 1;

const TRUE: u32 = 3;

const FALSE: u32 = 4;

const INTEGER: u32 = 5;

const CHARACTER: u32 = 7;

const SYMBOL: u32 = 10;

const TRANSCRIPT_WRITER: u32 = 22;

// A side of a class, where a lookup begins.
#[derive(Clone, Copy, Debug)]
struct Level {
    side: Side,
    class: u32,
}

/// The number of the selector of a built-in message. Every image has it.
pub fn selector_number(image: &Image, selector: &[u8]) -> u32
    requires { IsSelector selector.now }
    ensures number { result ≡ number_of (image_program image.now) selector.now }
    ensures there { result < length (image_names image.now).names }
{
    match image.names().find(selector) {
        Some(number) => number,
        None => unreachable!(),
    }
}

/// The method or built-in message that a receiver finds for a selector (ANSI NCITS 319, 3.3), in
/// the image and the heap that it belongs to. None where no class on its walk has the selector.
pub fn found_for<H: Heap>(image: &Image, heap: &H, receiver: Value, selector: u32) -> Option<Found>
    ensures { option_map as_row result ≡ code.lookup (image_program image.now) (code.level_of (H.meaning heap.now).store receiver) selector }
{
    let level = level_of(heap, receiver);
    image.lookup(level.side, level.class, selector)
}

// Where a receiver's lookup begins.
#[tactic(auto, unfolding(st_code::specs::Lookup::level_of))]
fn level_of<H: Heap>(heap: &H, receiver: Value) -> Level
    ensures { code.level (on_side result.side) result.class ≡ code.level_of (H.meaning heap.now).store receiver }
{
    match receiver {
        Value::Nil => instance(UNDEFINED_OBJECT),
        Value::True => instance(TRUE),
        Value::False => instance(FALSE),
        Value::Integer(_) => instance(INTEGER),
        Value::Character(_) => instance(CHARACTER),
        Value::Symbol(_) => instance(SYMBOL),
        Value::Class(class) => Level {
            side: Side::Class,
            class,
        },
        Value::Meta(class) => Level {
            side: Side::Meta,
            class,
        },
        Value::Transcript => instance(TRANSCRIPT_WRITER),
        Value::Object(object) => instance(heap.class_of(object)),
    }
}

fn instance(class: u32) -> Level
    ensures { result ≡ record { side = Side.Instance; class = class } }
{
    Level {
        side: Side::Instance,
        class,
    }
}
