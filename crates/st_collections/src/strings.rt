// Messages of Strings and Symbols: their order, their cases and new ones.
ghost use Rattle.std.specs.Prelude.{◌≡◌, ℕ, false, IsTrue, map, replicate, if◌then◌else◌};
ghost use Rattle.object_heap.specs.declared.trouble.Trouble.{Trouble};
ghost use Rattle.st_code.specs.Texts.{to_lower, to_upper};
ghost use Rattle.st_collections.specs.declared.answer.Built.{Built};
ghost use Rattle.st_collections.specs.Orders.{text_of};
ghost use Rattle.st_collections.specs.Answers.{program_of, answer_of, memory_of, is_out, unless_out};
ghost use Rattle.st_collections.specs.AtOnce.{string_row};
ghost use Rattle.st_collections.specs.TextRows.{string_action, new_string};
ghost use Rattle.st_collections.specs.Actions.{boolean, makes_string};

use crate::answer::{Built, answer_truth};
use crate::arguments::first_of;
use crate::classes::{STRING, SYMBOL};
use crate::items::Items;
use crate::makers::new_items;
use crate::message::OfString;
use crate::texts::{Folding, is_same, is_text, precedes, text_length};
use object_heap::{Heap, Trouble, Value};
use st_names::Names;

// A new String of so many spaces.
fn new_spaces<H: Heap>(heap: &mut H, names: &Names, count: u128) -> Built
    ensures memory { H.meaning heap.new ≡ unless_out result (H.meaning heap.old) (memory_of (makes_string (replicate count 32) (H.meaning heap.old).store) (H.meaning heap.old)) }
    ensures answer { result ≡ unless_out result result (answer_of (makes_string (replicate count 32) (H.meaning heap.old).store) (H.meaning heap.old)) }
    ensures reserved { IsTrue H.reserved → is_out result ≡ false }
    ensures literals { H.literal_room heap.new ≡ H.literal_room heap.old }
{
    let space = Items::Repeated(Value::Character(b' '));
    new_items(heap, names, STRING, space, count)
}

// What `new:` answers of a class.
fn new_of_size<H: Heap>(heap: &mut H, names: &Names, receiver: Value, size: Value) -> Built
    ensures memory { H.meaning heap.new ≡ unless_out result (H.meaning heap.old) (memory_of (new_string (H.meaning heap.old).store receiver size) (H.meaning heap.old)) }
    ensures answer { result ≡ unless_out result result (answer_of (new_string (H.meaning heap.old).store receiver size) (H.meaning heap.old)) }
    ensures reserved { IsTrue H.reserved → is_out result ≡ false }
    ensures literals { H.literal_room heap.new ≡ H.literal_room heap.old }
{
    let Value::Class(class) = receiver else {
        return Built::Trouble(Trouble::NumberExpected);
    };
    if class == SYMBOL {
        return Built::Trouble(Trouble::CannotBeInstantiated);
    }
    match size {
        Value::Integer(count) => {
            if count < 0 {
                return Built::Trouble(Trouble::IndexOutOfRange);
            }
            new_spaces(heap, names, count as u128)
        }
        _ => Built::Trouble(Trouble::NumberExpected),
    }
}

// A new String of a text in capital letters.
fn new_upper<H: Heap>(heap: &mut H, names: &Names, text: Value) -> Built
    ensures memory { H.meaning heap.new ≡ unless_out result (H.meaning heap.old) (memory_of (makes_string (map to_upper (text_of (program_of names.now) (H.meaning heap.old).store text)) (H.meaning heap.old).store) (H.meaning heap.old)) }
    ensures answer { result ≡ unless_out result result (answer_of (makes_string (map to_upper (text_of (program_of names.now) (H.meaning heap.old).store text)) (H.meaning heap.old).store) (H.meaning heap.old)) }
    ensures reserved { IsTrue H.reserved → is_out result ≡ false }
    ensures literals { H.literal_room heap.new ≡ H.literal_room heap.old }
{
    let count = text_length(heap, names, text);
    new_items(heap, names, STRING, Items::Upper(text), count as u128)
}

// A new String of a text in small letters.
fn new_lower<H: Heap>(heap: &mut H, names: &Names, text: Value) -> Built
    ensures memory { H.meaning heap.new ≡ unless_out result (H.meaning heap.old) (memory_of (makes_string (map to_lower (text_of (program_of names.now) (H.meaning heap.old).store text)) (H.meaning heap.old).store) (H.meaning heap.old)) }
    ensures answer { result ≡ unless_out result result (answer_of (makes_string (map to_lower (text_of (program_of names.now) (H.meaning heap.old).store text)) (H.meaning heap.old).store) (H.meaning heap.old)) }
    ensures reserved { IsTrue H.reserved → is_out result ≡ false }
    ensures literals { H.literal_room heap.new ≡ H.literal_room heap.old }
{
    let count = text_length(heap, names, text);
    new_items(heap, names, STRING, Items::Lower(text), count as u128)
}

// A new String of a text.
fn new_copy<H: Heap>(heap: &mut H, names: &Names, text: Value) -> Built
    ensures memory { H.meaning heap.new ≡ unless_out result (H.meaning heap.old) (memory_of (makes_string (text_of (program_of names.now) (H.meaning heap.old).store text) (H.meaning heap.old).store) (H.meaning heap.old)) }
    ensures answer { result ≡ unless_out result result (answer_of (makes_string (text_of (program_of names.now) (H.meaning heap.old).store text) (H.meaning heap.old).store) (H.meaning heap.old)) }
    ensures reserved { IsTrue H.reserved → is_out result ≡ false }
    ensures literals { H.literal_room heap.new ≡ H.literal_room heap.old }
{
    let count = text_length(heap, names, text);
    new_items(heap, names, STRING, Items::From(text, 1), count as u128)
}

// An answer that asks for a text.
fn answer_if_text(text: bool, holds: bool) -> Built
    ensures { result ≡ (if text then Built.Value (boolean holds) else Built.Trouble Trouble.StringExpected) }
{
    if text {
        return answer_truth(holds);
    }
    Built::Trouble(Trouble::StringExpected)
}

/// What a String, a Symbol or class String answers.
#[tactic(auto, unfolding(crate::specs::TextRows::string_action))]
pub fn string_message<H: Heap>(
    heap: &mut H,
    names: &Names,
    message: OfString,
    receiver: Value,
    arguments: &[Value],
) -> Built
    ensures memory { H.meaning heap.new ≡ unless_out result (H.meaning heap.old) (memory_of (string_action (program_of names.now) (H.meaning heap.old).store (string_row message) receiver arguments.now) (H.meaning heap.old)) }
    ensures answer { result ≡ unless_out result result (answer_of (string_action (program_of names.now) (H.meaning heap.old).store (string_row message) receiver arguments.now) (H.meaning heap.old)) }
    ensures reserved { IsTrue H.reserved → is_out result ≡ false }
    ensures literals { H.literal_room heap.new ≡ H.literal_room heap.old }
{
    let argument = first_of(arguments);
    let text = is_text(heap, argument);
    match message {
        OfString::Equal => {
            answer_truth(text && is_same(heap, names, receiver, argument, Folding::Exact))
        }
        OfString::Less => answer_if_text(text, precedes(heap, names, receiver, argument)),
        OfString::Greater => answer_if_text(text, precedes(heap, names, argument, receiver)),
        OfString::LessOrEqual => answer_if_text(text, !precedes(heap, names, argument, receiver)),
        OfString::GreaterOrEqual => {
            answer_if_text(text, !precedes(heap, names, receiver, argument))
        }
        OfString::AsUppercase => new_upper(heap, names, receiver),
        OfString::AsLowercase => new_lower(heap, names, receiver),
        OfString::AsString => new_copy(heap, names, receiver),
        OfString::SameAs => {
            let same = is_same(heap, names, receiver, argument, Folding::Small);
            answer_if_text(text, same)
        }
        OfString::NewSize => new_of_size(heap, names, receiver, argument),
    }
}
