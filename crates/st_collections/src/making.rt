// Messages that make collections, Associations and Intervals.
ghost use Rattle.std.specs.Prelude.{◌≡◌, ℕ, ℤ, ◌∷◌, [], pos, false, replicate, IsTrue};
ghost use Rattle.object_heap.specs.Charges.{Memory};
ghost use Rattle.object_heap.specs.declared.value.Value.{Value};
ghost use Rattle.st_code.specs.BuiltIns.{array_class, association_class, byte_array_class};
ghost use Rattle.st_collections.specs.Actions.{first, makes_bytes, makes_slots};
ghost use Rattle.st_collections.specs.Answers.{program_of, answer_of, memory_of, is_out, unless_out};
ghost use Rattle.st_collections.specs.AtOnce.{making_action, with_all};
ghost use Rattle.st_collections.specs.IntervalRows.{interval, interval_by, to_action, to_by_action};
ghost use Rattle.st_collections.specs.Items.{IsMeasured};
ghost use Rattle.st_collections.specs.Kinds.{integer_of};
ghost use Rattle.st_collections.specs.ObjectRows.{sized};
ghost use Rattle.st_collections.specs.SequenceRows.{class_number};

use crate::answer::Built;
use crate::arguments::{first_of, second_of, size_asked};
use crate::classes::{ARRAY, ASSOCIATION, BYTE_ARRAY, INTERVAL};
use crate::elements::size_now;
use crate::intervals::has_few_elements;
use crate::items::Items;
use crate::kinds::is_collection_now;
use crate::makers::{new_items, new_values};
use crate::message::OfMaking;
use object_heap::{Heap, Trouble, Value};
use st_names::Names;

// A new Array of so many nils.
fn new_array<H: Heap>(heap: &mut H, names: &Names, size: Value) -> Built
    ensures memory { H.meaning heap.new ≡ unless_out result (H.meaning heap.old) (memory_of (sized size (λ n. makes_slots array_class (replicate n Value.Nil) (H.meaning heap.old).store)) (H.meaning heap.old)) }
    ensures answer { result ≡ unless_out result result (answer_of (sized size (λ n. makes_slots array_class (replicate n Value.Nil) (H.meaning heap.old).store)) (H.meaning heap.old)) }
    ensures reserved { IsTrue H.reserved → is_out result ≡ false }
    ensures literals { H.literal_room heap.new ≡ H.literal_room heap.old }
{
    match size_asked(size) {
        Ok(count) => nils(heap, names, count),
        Err(trouble) => Built::Trouble(trouble),
    }
}

fn nils<H: Heap>(heap: &mut H, names: &Names, count: u128) -> Built
    ensures memory { H.meaning heap.new ≡ unless_out result (H.meaning heap.old) (memory_of (makes_slots array_class (replicate count Value.Nil) (H.meaning heap.old).store) (H.meaning heap.old)) }
    ensures answer { result ≡ unless_out result result (answer_of (makes_slots array_class (replicate count Value.Nil) (H.meaning heap.old).store) (H.meaning heap.old)) }
    ensures reserved { IsTrue H.reserved → is_out result ≡ false }
    ensures literals { H.literal_room heap.new ≡ H.literal_room heap.old }
{
    new_items(heap, names, ARRAY, Items::Repeated(Value::Nil), count)
}

// A new ByteArray of so many zeros.
fn new_byte_array<H: Heap>(heap: &mut H, names: &Names, size: Value) -> Built
    ensures memory { H.meaning heap.new ≡ unless_out result (H.meaning heap.old) (memory_of (sized size (λ n. makes_bytes byte_array_class (replicate n 0) (H.meaning heap.old).store)) (H.meaning heap.old)) }
    ensures answer { result ≡ unless_out result result (answer_of (sized size (λ n. makes_bytes byte_array_class (replicate n 0) (H.meaning heap.old).store)) (H.meaning heap.old)) }
    ensures reserved { IsTrue H.reserved → is_out result ≡ false }
    ensures literals { H.literal_room heap.new ≡ H.literal_room heap.old }
{
    match size_asked(size) {
        Ok(count) => zeros(heap, names, count),
        Err(trouble) => Built::Trouble(trouble),
    }
}

fn zeros<H: Heap>(heap: &mut H, names: &Names, count: u128) -> Built
    ensures memory { H.meaning heap.new ≡ unless_out result (H.meaning heap.old) (memory_of (makes_bytes byte_array_class (replicate count 0) (H.meaning heap.old).store) (H.meaning heap.old)) }
    ensures answer { result ≡ unless_out result result (answer_of (makes_bytes byte_array_class (replicate count 0) (H.meaning heap.old).store) (H.meaning heap.old)) }
    ensures reserved { IsTrue H.reserved → is_out result ≡ false }
    ensures literals { H.literal_room heap.new ≡ H.literal_room heap.old }
{
    new_items(
        heap,
        names,
        BYTE_ARRAY,
        Items::Repeated(Value::Integer(0)),
        count,
    )
}

// A new Array of the elements of a collection.
fn array_of_all<H: Heap>(heap: &mut H, names: &Names, collection: Value) -> Built
    requires { IsMeasured (H.meaning heap.old).store collection }
    ensures memory { H.meaning heap.new ≡ unless_out result (H.meaning heap.old) (memory_of (with_all (program_of names.now) (H.meaning heap.old).store collection) (H.meaning heap.old)) }
    ensures answer { result ≡ unless_out result result (answer_of (with_all (program_of names.now) (H.meaning heap.old).store collection) (H.meaning heap.old)) }
    ensures reserved { IsTrue H.reserved → is_out result ≡ false }
    ensures literals { H.literal_room heap.new ≡ H.literal_room heap.old }
{
    if !is_collection_now(heap, collection) {
        return Built::Trouble(Trouble::CollectionExpected);
    }
    let size = size_now(heap, names, collection);
    new_items(heap, names, ARRAY, Items::From(collection, 1), size)
}

// A new collection of this class without elements.
fn new_empty<H: Heap>(heap: &mut H, class: Value) -> Built
    ensures memory { H.meaning heap.new ≡ unless_out result (H.meaning heap.old) (memory_of (makes_slots (class_number class) [] (H.meaning heap.old).store) (H.meaning heap.old)) }
    ensures answer { result ≡ unless_out result result (answer_of (makes_slots (class_number class) [] (H.meaning heap.old).store) (H.meaning heap.old)) }
    ensures reserved { IsTrue H.reserved → is_out result ≡ false }
    ensures literals { H.literal_room heap.new ≡ H.literal_room heap.old }
{
    match class {
        Value::Class(class) => new_values(heap, class, &[]),
        _ => new_values(heap, 0, &[]),
    }
}

// A new Association.
fn pair<H: Heap>(heap: &mut H, key: Value, value: Value) -> Built
    ensures memory { H.meaning heap.new ≡ unless_out result (H.meaning heap.old) (memory_of (makes_slots association_class (key ∷ value ∷ []) (H.meaning heap.old).store) (H.meaning heap.old)) }
    ensures answer { result ≡ unless_out result result (answer_of (makes_slots association_class (key ∷ value ∷ []) (H.meaning heap.old).store) (H.meaning heap.old)) }
    ensures reserved { IsTrue H.reserved → is_out result ≡ false }
    ensures literals { H.literal_room heap.new ≡ H.literal_room heap.old }
{
    new_values(heap, ASSOCIATION, &[key, value])
}

// A new Interval, unless it has too many elements.
fn new_interval<H: Heap>(heap: &mut H, start: i128, stop: i128, by: i128) -> Built
    ensures memory { H.meaning heap.new ≡ unless_out result (H.meaning heap.old) (memory_of (interval (H.meaning heap.old).store start stop by) (H.meaning heap.old)) }
    ensures answer { result ≡ unless_out result result (answer_of (interval (H.meaning heap.old).store start stop by) (H.meaning heap.old)) }
    ensures reserved { IsTrue H.reserved → is_out result ≡ false }
    ensures literals { H.literal_room heap.new ≡ H.literal_room heap.old }
{
    if !has_few_elements(start, stop, by) {
        return Built::IntegerLimit;
    }
    let ends = [
        Value::Integer(start),
        Value::Integer(stop),
        Value::Integer(by),
    ];
    new_values(heap, INTERVAL, &ends)
}

fn integer_in(value: Value) -> i128
    ensures { result ≡ integer_of value }
{
    match value {
        Value::Integer(number) => number,
        _ => 0,
    }
}

// The Interval from a number to another.
fn interval_to<H: Heap>(heap: &mut H, start: Value, stop: Value) -> Built
    ensures memory { H.meaning heap.new ≡ unless_out result (H.meaning heap.old) (memory_of (to_action (H.meaning heap.old).store start stop) (H.meaning heap.old)) }
    ensures answer { result ≡ unless_out result result (answer_of (to_action (H.meaning heap.old).store start stop) (H.meaning heap.old)) }
    ensures reserved { IsTrue H.reserved → is_out result ≡ false }
    ensures literals { H.literal_room heap.new ≡ H.literal_room heap.old }
{
    match stop {
        Value::Integer(stop) => new_interval(heap, integer_in(start), stop, 1),
        _ => Built::Trouble(Trouble::NumberExpected),
    }
}

// The same by a step.
fn interval_of_step<H: Heap>(heap: &mut H, start: i128, stop: i128, by: i128) -> Built
    ensures memory { H.meaning heap.new ≡ unless_out result (H.meaning heap.old) (memory_of (interval_by (H.meaning heap.old).store start stop by) (H.meaning heap.old)) }
    ensures answer { result ≡ unless_out result result (answer_of (interval_by (H.meaning heap.old).store start stop by) (H.meaning heap.old)) }
    ensures reserved { IsTrue H.reserved → is_out result ≡ false }
    ensures literals { H.literal_room heap.new ≡ H.literal_room heap.old }
{
    if by == 0 {
        return Built::Trouble(Trouble::StepIsZero);
    }
    new_interval(heap, start, stop, by)
}

// The same, for any values.
fn interval_to_by<H: Heap>(heap: &mut H, start: Value, stop: Value, by: Value) -> Built
    ensures memory { H.meaning heap.new ≡ unless_out result (H.meaning heap.old) (memory_of (to_by_action (H.meaning heap.old).store start stop by) (H.meaning heap.old)) }
    ensures answer { result ≡ unless_out result result (answer_of (to_by_action (H.meaning heap.old).store start stop by) (H.meaning heap.old)) }
    ensures reserved { IsTrue H.reserved → is_out result ≡ false }
    ensures literals { H.literal_room heap.new ≡ H.literal_room heap.old }
{
    match (stop, by) {
        (Value::Integer(stop), Value::Integer(by)) => {
            interval_of_step(heap, integer_in(start), stop, by)
        }
        _ => Built::Trouble(Trouble::NumberExpected),
    }
}

/// What makes a collection, an Association or an Interval.
#[tactic(auto, unfolding(crate::specs::SequenceRows::collection_action, crate::specs::ObjectRows::object_action))]
pub fn making_message<H: Heap>(
    heap: &mut H,
    names: &Names,
    message: OfMaking,
    receiver: Value,
    arguments: &[Value],
) -> Built
    requires { IsMeasured (H.meaning heap.old).store (first arguments.now) }
    ensures memory { H.meaning heap.new ≡ unless_out result (H.meaning heap.old) (memory_of (making_action (program_of names.now) (H.meaning heap.old).store message receiver arguments.now) (H.meaning heap.old)) }
    ensures answer { result ≡ unless_out result result (answer_of (making_action (program_of names.now) (H.meaning heap.old).store message receiver arguments.now) (H.meaning heap.old)) }
    ensures reserved { IsTrue H.reserved → is_out result ≡ false }
    ensures literals { H.literal_room heap.new ≡ H.literal_room heap.old }
{
    let argument = first_of(arguments);
    match message {
        OfMaking::Array => new_array(heap, names, argument),
        OfMaking::ByteArray => new_byte_array(heap, names, argument),
        OfMaking::With => new_values(heap, ARRAY, arguments),
        OfMaking::WithAll => array_of_all(heap, names, argument),
        OfMaking::Empty => new_empty(heap, receiver),
        OfMaking::KeyValue => pair(heap, argument, second_of(arguments)),
        OfMaking::Arrow => pair(heap, receiver, argument),
        OfMaking::To => interval_to(heap, receiver, argument),
        OfMaking::ToBy => interval_to_by(heap, receiver, argument, second_of(arguments)),
    }
}
