// Messages of sequences: elements by index, parts, joins and conversions.
ghost use Rattle.std.specs.Prelude.{◌≡◌, ℕ, ℤ, ◌+◌, pos, false, not, nat_eq, reverse, IsTrue};
ghost use Rattle.object_heap.specs.Charges.{Memory};
ghost use Rattle.st_code.specs.BuiltIns.{array_class, ordered_collection_class};
ghost use Rattle.st_collections.specs.Actions.{Gives, boolean, first, makes_slots};
ghost use Rattle.st_collections.specs.Answers.{program_of, answer_of, memory_of, is_out, unless_out};
ghost use Rattle.st_collections.specs.AtOnce.{sequence_row};
ghost use Rattle.st_collections.specs.Items.{IsMeasured};
ghost use Rattle.st_collections.specs.Kinds.{element, elements, size_of, species};
ghost use Rattle.st_collections.specs.ObjectRows.{indexed};
ghost use Rattle.st_collections.specs.SequenceRows.{at_put, copy_between, copy_from_to, join, makes_sequence, sequence_action, unless_empty};

use crate::answer::{Built, answer_truth};
use crate::arguments::{first_of, place_of, second_of};
use crate::classes::{ARRAY, ORDERED_COLLECTION};
use crate::elements::{element_now, size_now};
use crate::items::Items;
use crate::kinds::{is_sequence_now, species_now, trouble_with};
use crate::makers::new_items;
use crate::message::OfSequence;
use crate::writes::write_at;
use object_heap::{Heap, Trouble, Value};
use st_names::Names;

// The element at an index.
fn at<H: Heap>(heap: &H, names: &Names, receiver: Value, index: Value) -> Built
    requires { IsMeasured (H.meaning heap.now).store receiver }
    ensures answer { (m : Memory) → result ≡ answer_of (indexed index (size_of (program_of names.now) (H.meaning heap.now).store receiver) (λ i. Gives (element (program_of names.now) (H.meaning heap.now).store receiver (i + 1)))) m }
    ensures settled { is_out result ≡ false }
{
    match place_of(index, size_now(heap, names, receiver)) {
        Ok(place) => Built::Value(element_now(heap, names, receiver, place + 1)),
        Err(trouble) => Built::Trouble(trouble),
    }
}

// The first element.
fn first_element<H: Heap>(heap: &H, names: &Names, receiver: Value) -> Built
    requires { IsMeasured (H.meaning heap.now).store receiver }
    ensures answer { (m : Memory) → result ≡ answer_of (unless_empty (program_of names.now) (H.meaning heap.now).store receiver (Gives (element (program_of names.now) (H.meaning heap.now).store receiver 1))) m }
    ensures settled { is_out result ≡ false }
{
    if size_now(heap, names, receiver) == 0 {
        return Built::Trouble(Trouble::CollectionIsEmpty);
    }
    Built::Value(element_now(heap, names, receiver, 1))
}

// The last element.
fn last_element<H: Heap>(heap: &H, names: &Names, receiver: Value) -> Built
    requires { IsMeasured (H.meaning heap.now).store receiver }
    ensures answer { (m : Memory) → result ≡ answer_of (unless_empty (program_of names.now) (H.meaning heap.now).store receiver (Gives (element (program_of names.now) (H.meaning heap.now).store receiver (size_of (program_of names.now) (H.meaning heap.now).store receiver)))) m }
    ensures settled { is_out result ≡ false }
{
    let size = size_now(heap, names, receiver);
    if size == 0 {
        return Built::Trouble(Trouble::CollectionIsEmpty);
    }
    Built::Value(element_now(heap, names, receiver, size))
}

// Another element at an index.
fn put_at_index<H: Heap>(
    heap: &mut H,
    names: &Names,
    receiver: Value,
    index: Value,
    value: Value,
) -> Built
    requires { IsMeasured (H.meaning heap.old).store receiver }
    ensures memory { H.meaning heap.new ≡ unless_out result (H.meaning heap.old) (memory_of (at_put (program_of names.now) (H.meaning heap.old).store receiver index value) (H.meaning heap.old)) }
    ensures answer { result ≡ unless_out result result (answer_of (at_put (program_of names.now) (H.meaning heap.old).store receiver index value) (H.meaning heap.old)) }
    ensures reserved { IsTrue H.reserved → is_out result ≡ false }
    ensures literals { H.literal_room heap.new ≡ H.literal_room heap.old }
{
    let Value::Object(object) = receiver else {
        return Built::Trouble(Trouble::LiteralIsReadOnly);
    };
    if heap.is_literal(object) {
        return Built::Trouble(Trouble::LiteralIsReadOnly);
    }
    match place_of(index, size_now(heap, names, receiver)) {
        Ok(place) => write_at(heap, object, place, value),
        Err(trouble) => Built::Trouble(trouble),
    }
}

// The elements of the receiver, then those of the argument.
fn joined<H: Heap>(heap: &mut H, names: &Names, receiver: Value, argument: Value) -> Built
    requires receiver { IsMeasured (H.meaning heap.old).store receiver }
    requires argument { IsMeasured (H.meaning heap.old).store argument }
    ensures memory { H.meaning heap.new ≡ unless_out result (H.meaning heap.old) (memory_of (join (program_of names.now) (H.meaning heap.old).store receiver argument) (H.meaning heap.old)) }
    ensures answer { result ≡ unless_out result result (answer_of (join (program_of names.now) (H.meaning heap.old).store receiver argument) (H.meaning heap.old)) }
    ensures reserved { IsTrue H.reserved → is_out result ≡ false }
    ensures literals { H.literal_room heap.new ≡ H.literal_room heap.old }
{
    if !is_sequence_now(heap, argument) {
        return Built::Trouble(Trouble::CollectionExpected);
    }
    let class = species_now(heap, receiver);
    let size = size_now(heap, names, receiver);
    let added = size_now(heap, names, argument);
    match trouble_with(heap, names, class, argument, added) {
        Some(trouble) => Built::Trouble(trouble),
        None => {
            let items = Items::Joined(receiver, size, argument);
            new_items(heap, names, class, items, size + added)
        }
    }
}

// The elements from one index to another.
fn part<H: Heap>(heap: &mut H, names: &Names, receiver: Value, from: i128, to: i128) -> Built
    requires { IsMeasured (H.meaning heap.old).store receiver }
    ensures memory { H.meaning heap.new ≡ unless_out result (H.meaning heap.old) (memory_of (copy_between (program_of names.now) (H.meaning heap.old).store receiver from to) (H.meaning heap.old)) }
    ensures answer { result ≡ unless_out result result (answer_of (copy_between (program_of names.now) (H.meaning heap.old).store receiver from to) (H.meaning heap.old)) }
    ensures reserved { IsTrue H.reserved → is_out result ≡ false }
    ensures literals { H.literal_room heap.new ≡ H.literal_room heap.old }
{
    let class = species_now(heap, receiver);
    if to < from {
        return new_items(heap, names, class, Items::Repeated(Value::Nil), 0);
    }
    let size = size_now(heap, names, receiver);
    let first = match place_of(Value::Integer(from), size) {
        Ok(place) => place,
        Err(_) => return Built::Trouble(Trouble::IndexOutOfRange),
    };
    let last = match place_of(Value::Integer(to), size) {
        Ok(place) => place,
        Err(_) => return Built::Trouble(Trouble::IndexOutOfRange),
    };
    let items = Items::From(receiver, first + 1);
    new_items(heap, names, class, items, last - first + 1)
}

// The same, for any two values.
fn part_between<H: Heap>(
    heap: &mut H,
    names: &Names,
    receiver: Value,
    from: Value,
    to: Value,
) -> Built
    requires { IsMeasured (H.meaning heap.old).store receiver }
    ensures memory { H.meaning heap.new ≡ unless_out result (H.meaning heap.old) (memory_of (copy_from_to (program_of names.now) (H.meaning heap.old).store receiver from to) (H.meaning heap.old)) }
    ensures answer { result ≡ unless_out result result (answer_of (copy_from_to (program_of names.now) (H.meaning heap.old).store receiver from to) (H.meaning heap.old)) }
    ensures reserved { IsTrue H.reserved → is_out result ≡ false }
    ensures literals { H.literal_room heap.new ≡ H.literal_room heap.old }
{
    match (from, to) {
        (Value::Integer(from), Value::Integer(to)) => part(heap, names, receiver, from, to),
        _ => Built::Trouble(Trouble::NumberExpected),
    }
}

// The elements, the last one first.
fn backwards<H: Heap>(heap: &mut H, names: &Names, receiver: Value) -> Built
    requires { IsMeasured (H.meaning heap.old).store receiver }
    ensures memory { H.meaning heap.new ≡ unless_out result (H.meaning heap.old) (memory_of (makes_sequence (species (H.meaning heap.old).store receiver) (reverse (elements (program_of names.now) (H.meaning heap.old).store receiver)) (H.meaning heap.old).store) (H.meaning heap.old)) }
    ensures answer { result ≡ unless_out result result (answer_of (makes_sequence (species (H.meaning heap.old).store receiver) (reverse (elements (program_of names.now) (H.meaning heap.old).store receiver)) (H.meaning heap.old).store) (H.meaning heap.old)) }
    ensures reserved { IsTrue H.reserved → is_out result ≡ false }
    ensures literals { H.literal_room heap.new ≡ H.literal_room heap.old }
{
    let class = species_now(heap, receiver);
    let size = size_now(heap, names, receiver);
    new_items(heap, names, class, Items::Backwards(receiver, size), size)
}

// The elements in an Array.
fn as_array<H: Heap>(heap: &mut H, names: &Names, receiver: Value) -> Built
    requires { IsMeasured (H.meaning heap.old).store receiver }
    ensures memory { H.meaning heap.new ≡ unless_out result (H.meaning heap.old) (memory_of (makes_slots array_class (elements (program_of names.now) (H.meaning heap.old).store receiver) (H.meaning heap.old).store) (H.meaning heap.old)) }
    ensures answer { result ≡ unless_out result result (answer_of (makes_slots array_class (elements (program_of names.now) (H.meaning heap.old).store receiver) (H.meaning heap.old).store) (H.meaning heap.old)) }
    ensures reserved { IsTrue H.reserved → is_out result ≡ false }
    ensures literals { H.literal_room heap.new ≡ H.literal_room heap.old }
{
    let size = size_now(heap, names, receiver);
    new_items(heap, names, ARRAY, Items::From(receiver, 1), size)
}

// The elements in an OrderedCollection.
fn as_ordered<H: Heap>(heap: &mut H, names: &Names, receiver: Value) -> Built
    requires { IsMeasured (H.meaning heap.old).store receiver }
    ensures memory { H.meaning heap.new ≡ unless_out result (H.meaning heap.old) (memory_of (makes_slots ordered_collection_class (elements (program_of names.now) (H.meaning heap.old).store receiver) (H.meaning heap.old).store) (H.meaning heap.old)) }
    ensures answer { result ≡ unless_out result result (answer_of (makes_slots ordered_collection_class (elements (program_of names.now) (H.meaning heap.old).store receiver) (H.meaning heap.old).store) (H.meaning heap.old)) }
    ensures reserved { IsTrue H.reserved → is_out result ≡ false }
    ensures literals { H.literal_room heap.new ≡ H.literal_room heap.old }
{
    let size = size_now(heap, names, receiver);
    new_items(
        heap,
        names,
        ORDERED_COLLECTION,
        Items::From(receiver, 1),
        size,
    )
}

/// What a sequence, a Set or a Dictionary answers.
#[tactic(auto, unfolding(crate::specs::SequenceRows::sequence_action))]
pub fn sequence_message<H: Heap>(
    heap: &mut H,
    names: &Names,
    message: OfSequence,
    receiver: Value,
    arguments: &[Value],
) -> Built
    requires receiver { IsMeasured (H.meaning heap.old).store receiver }
    requires argument { IsMeasured (H.meaning heap.old).store (first arguments.now) }
    ensures memory { H.meaning heap.new ≡ unless_out result (H.meaning heap.old) (memory_of (sequence_action (program_of names.now) (H.meaning heap.old).store (sequence_row message) receiver arguments.now) (H.meaning heap.old)) }
    ensures answer { result ≡ unless_out result result (answer_of (sequence_action (program_of names.now) (H.meaning heap.old).store (sequence_row message) receiver arguments.now) (H.meaning heap.old)) }
    ensures reserved { IsTrue H.reserved → is_out result ≡ false }
    ensures literals { H.literal_room heap.new ≡ H.literal_room heap.old }
{
    let argument = first_of(arguments);
    match message {
        OfSequence::At => at(heap, names, receiver, argument),
        OfSequence::Size => {
            Built::Value(Value::Integer(size_now(heap, names, receiver) as i128))
        }
        OfSequence::IsEmpty => answer_truth(size_now(heap, names, receiver) == 0),
        OfSequence::NotEmpty => answer_truth(size_now(heap, names, receiver) != 0),
        OfSequence::First => first_element(heap, names, receiver),
        OfSequence::Last => last_element(heap, names, receiver),
        OfSequence::Join => joined(heap, names, receiver, argument),
        OfSequence::CopyFromTo => {
            part_between(heap, names, receiver, argument, second_of(arguments))
        }
        OfSequence::Reverse => backwards(heap, names, receiver),
        OfSequence::AsArray => as_array(heap, names, receiver),
        OfSequence::AsOrderedCollection => as_ordered(heap, names, receiver),
        OfSequence::AtPut => { put_at_index(heap, names, receiver, argument, second_of(arguments)) }
    }
}
