// Messages of OrderedCollections that add and remove elements.
ghost use Rattle.std.specs.Prelude.{◌≡◌, ◌↔◌, ℕ, ◌+◌, ◌-◌, ◌<◌, ◌≤◌, ◌^◌, ◌∷◌, ◌++◌, [], false, get_or, insert, length, IsTrue};
ghost use Rattle.object_heap.specs.declared.value.Value.{Value};
ghost use Rattle.object_heap.specs.Charges.{with_store};
ghost use Rattle.object_heap.specs.Store.{object_at};
ghost use Rattle.st_collections.specs.Actions.{Changes, first, second};
ghost use Rattle.st_collections.specs.Answers.{program_of, answer_of, memory_of, is_out, unless_out};
ghost use Rattle.st_collections.specs.AtOnce.{ordered_action};
ghost use Rattle.st_collections.specs.Items.{IsMeasured};
ghost use Rattle.st_collections.specs.Kinds.{size_of, some_elements};
ghost use Rattle.st_collections.specs.ObjectRows.{indexed};
ghost use Rattle.st_collections.specs.Ordered.{IsOpen, IsOrdered, all_added, is_ordered, removal, slots_set};
ghost use Rattle.st_collections.specs.SequenceRows.{adds, unless_empty, without_element};

use crate::answer::{Built, answer_stop};
use crate::arguments::{first_of, place_of, second_of};
use crate::classes::ORDERED_COLLECTION;
use crate::elements::{element_now, size_now};
use crate::growth::{close_slot, open_slot, reserve_slot, reserve_slots};
use crate::kinds::is_collection_now;
use crate::message::OfOrdered;
use object_heap::{Heap, Trouble, Value};
use st_names::Names;

// Adds an element at a place, and answers it.
fn add_at<H: Heap>(heap: &mut H, object: u32, place: u32, value: Value) -> Built
    requires open { IsOpen (H.meaning heap.old).store object }
    requires within { place ≤ length (object_at object (H.meaning heap.old).store).slots }
    ensures memory { H.meaning heap.new ≡ unless_out result (H.meaning heap.old) (memory_of (adds (H.meaning heap.old).store object (insert (object_at object (H.meaning heap.old).store).slots place value) value) (H.meaning heap.old)) }
    ensures answer { result ≡ unless_out result result (answer_of (adds (H.meaning heap.old).store object (insert (object_at object (H.meaning heap.old).store).slots place value) value) (H.meaning heap.old)) }
    ensures reserved { IsTrue H.reserved → is_out result ≡ false }
    ensures literals { H.literal_room heap.new ≡ H.literal_room heap.old }
{
    match reserve_slot(heap, object) {
        Ok(()) => (),
        Err(stop) => return answer_stop(stop),
    }
    open_slot(heap, object, place);
    heap.put(object, place, value);
    Built::Value(value)
}

// Takes out the element at a place, and answers it.
fn remove_at<H: Heap>(heap: &mut H, object: u32, place: u32) -> Built
    requires open { IsOpen (H.meaning heap.old).store object }
    requires within { place < length (object_at object (H.meaning heap.old).store).slots }
    ensures memory { H.meaning heap.new ≡ unless_out result (H.meaning heap.old) (memory_of (Changes (without_element (H.meaning heap.old).store object place) (get_or (object_at object (H.meaning heap.old).store).slots place Value.Nil)) (H.meaning heap.old)) }
    ensures answer { result ≡ unless_out result result (answer_of (Changes (without_element (H.meaning heap.old).store object place) (get_or (object_at object (H.meaning heap.old).store).slots place Value.Nil)) (H.meaning heap.old)) }
    ensures reserved { IsTrue H.reserved → is_out result ≡ false }
    ensures literals { H.literal_room heap.new ≡ H.literal_room heap.old }
{
    let value = heap.get(object, place);
    close_slot(heap, object, place);
    Built::Value(value)
}

fn add_last<H: Heap>(heap: &mut H, object: u32, value: Value) -> Built
    requires { IsOpen (H.meaning heap.old).store object }
    ensures memory { H.meaning heap.new ≡ unless_out result (H.meaning heap.old) (memory_of (adds (H.meaning heap.old).store object ((object_at object (H.meaning heap.old).store).slots ++ value ∷ []) value) (H.meaning heap.old)) }
    ensures answer { result ≡ unless_out result result (answer_of (adds (H.meaning heap.old).store object ((object_at object (H.meaning heap.old).store).slots ++ value ∷ []) value) (H.meaning heap.old)) }
    ensures reserved { IsTrue H.reserved → is_out result ≡ false }
    ensures literals { H.literal_room heap.new ≡ H.literal_room heap.old }
{
    let length = heap.length(object);
    add_at(heap, object, length, value)
}

fn add_first<H: Heap>(heap: &mut H, object: u32, value: Value) -> Built
    requires { IsOpen (H.meaning heap.old).store object }
    ensures memory { H.meaning heap.new ≡ unless_out result (H.meaning heap.old) (memory_of (adds (H.meaning heap.old).store object (value ∷ (object_at object (H.meaning heap.old).store).slots) value) (H.meaning heap.old)) }
    ensures answer { result ≡ unless_out result result (answer_of (adds (H.meaning heap.old).store object (value ∷ (object_at object (H.meaning heap.old).store).slots) value) (H.meaning heap.old)) }
    ensures reserved { IsTrue H.reserved → is_out result ≡ false }
    ensures literals { H.literal_room heap.new ≡ H.literal_room heap.old }
{
    add_at(heap, object, 0, value)
}

// Writes elements of a collection behind those that stand, for which there is room.
fn append_elements<H: Heap>(heap: &mut H, names: &Names, object: u32, collection: Value, count: u32)
    requires open { IsOpen (H.meaning heap.old).store object }
    requires room { let o = object_at object (H.meaning heap.old).store in length o.slots + count ≤ o.capacity }
    requires fits { length (object_at object (H.meaning heap.old).store).slots + count < 2 ^ 32 }
    requires measured { size_of (program_of names.now) (H.meaning heap.old).store collection < 2 ^ 127 }
    requires within { count ≤ size_of (program_of names.now) (H.meaning heap.old).store collection }
    ensures appended { H.meaning heap.new ≡ with_store (slots_set object ((object_at object (H.meaning heap.old).store).slots ++ some_elements (program_of names.now) (H.meaning heap.old).store collection 1 count) (H.meaning heap.old).store) (H.meaning heap.old) }
    ensures literals { H.literal_room heap.new ≡ H.literal_room heap.old }
{
    let length = heap.length(object);
    heap.set_length(object, length + count);
    for place in 0..count {
        let value = element_now(heap, names, collection, place as u128 + 1);
        heap.put(object, length + place, value);
    }
}

// Adds all elements of a collection, and answers it.
fn add_all<H: Heap>(heap: &mut H, names: &Names, object: u32, collection: Value) -> Built
    requires open { IsOpen (H.meaning heap.old).store object }
    requires measured { IsMeasured (H.meaning heap.old).store collection }
    ensures memory { H.meaning heap.new ≡ unless_out result (H.meaning heap.old) (memory_of (all_added (program_of names.now) (H.meaning heap.old).store object collection) (H.meaning heap.old)) }
    ensures answer { result ≡ unless_out result result (answer_of (all_added (program_of names.now) (H.meaning heap.old).store object collection) (H.meaning heap.old)) }
    ensures reserved { IsTrue H.reserved → is_out result ≡ false }
    ensures literals { H.literal_room heap.new ≡ H.literal_room heap.old }
{
    if !is_collection_now(heap, collection) {
        return Built::Trouble(Trouble::CollectionExpected);
    }
    let count = size_now(heap, names, collection);
    let size = heap.length(object) as u128 + count;
    match reserve_slots(heap, object, size) {
        Ok(()) => (),
        Err(stop) => return answer_stop(stop),
    }
    append_elements(heap, names, object, collection, count as u32);
    Built::Value(collection)
}

// Adds an element before an index, which may be one past the last.
fn add_before<H: Heap>(heap: &mut H, object: u32, value: Value, index: Value) -> Built
    requires { IsOpen (H.meaning heap.old).store object }
    ensures memory { H.meaning heap.new ≡ unless_out result (H.meaning heap.old) (memory_of (indexed index (length (object_at object (H.meaning heap.old).store).slots + 1) (λ i. adds (H.meaning heap.old).store object (insert (object_at object (H.meaning heap.old).store).slots i value) value)) (H.meaning heap.old)) }
    ensures answer { result ≡ unless_out result result (answer_of (indexed index (length (object_at object (H.meaning heap.old).store).slots + 1) (λ i. adds (H.meaning heap.old).store object (insert (object_at object (H.meaning heap.old).store).slots i value) value)) (H.meaning heap.old)) }
    ensures reserved { IsTrue H.reserved → is_out result ≡ false }
    ensures literals { H.literal_room heap.new ≡ H.literal_room heap.old }
{
    let size = heap.length(object) as u128 + 1;
    match place_of(index, size) {
        Ok(place) => add_at(heap, object, place as u32, value),
        Err(trouble) => Built::Trouble(trouble),
    }
}

// Takes out the element at an index.
fn remove_index<H: Heap>(heap: &mut H, object: u32, index: Value) -> Built
    requires { IsOpen (H.meaning heap.old).store object }
    ensures memory { H.meaning heap.new ≡ unless_out result (H.meaning heap.old) (memory_of (indexed index (length (object_at object (H.meaning heap.old).store).slots) (λ i. Changes (without_element (H.meaning heap.old).store object i) (get_or (object_at object (H.meaning heap.old).store).slots i Value.Nil))) (H.meaning heap.old)) }
    ensures answer { result ≡ unless_out result result (answer_of (indexed index (length (object_at object (H.meaning heap.old).store).slots) (λ i. Changes (without_element (H.meaning heap.old).store object i) (get_or (object_at object (H.meaning heap.old).store).slots i Value.Nil))) (H.meaning heap.old)) }
    ensures reserved { IsTrue H.reserved → is_out result ≡ false }
    ensures literals { H.literal_room heap.new ≡ H.literal_room heap.old }
{
    match place_of(index, heap.length(object) as u128) {
        Ok(place) => remove_at(heap, object, place as u32),
        Err(trouble) => Built::Trouble(trouble),
    }
}

// Takes out the first element.
fn remove_first<H: Heap>(heap: &mut H, object: u32) -> Built
    requires { IsOpen (H.meaning heap.old).store object }
    ensures memory { H.meaning heap.new ≡ unless_out result (H.meaning heap.old) (memory_of (removal (H.meaning heap.old).store object 0) (H.meaning heap.old)) }
    ensures answer { result ≡ unless_out result result (answer_of (removal (H.meaning heap.old).store object 0) (H.meaning heap.old)) }
    ensures reserved { IsTrue H.reserved → is_out result ≡ false }
    ensures literals { H.literal_room heap.new ≡ H.literal_room heap.old }
{
    if heap.length(object) == 0 {
        return Built::Trouble(Trouble::CollectionIsEmpty);
    }
    remove_at(heap, object, 0)
}

// Takes out the last element.
fn remove_last<H: Heap>(heap: &mut H, object: u32) -> Built
    requires { IsOpen (H.meaning heap.old).store object }
    ensures memory { H.meaning heap.new ≡ unless_out result (H.meaning heap.old) (memory_of (removal (H.meaning heap.old).store object (length (object_at object (H.meaning heap.old).store).slots - 1)) (H.meaning heap.old)) }
    ensures answer { result ≡ unless_out result result (answer_of (removal (H.meaning heap.old).store object (length (object_at object (H.meaning heap.old).store).slots - 1)) (H.meaning heap.old)) }
    ensures reserved { IsTrue H.reserved → is_out result ≡ false }
    ensures literals { H.literal_room heap.new ≡ H.literal_room heap.old }
{
    let length = heap.length(object);
    if length == 0 {
        return Built::Trouble(Trouble::CollectionIsEmpty);
    }
    remove_at(heap, object, length - 1)
}

/// What an OrderedCollection answers that adds elements or removes one by its place.
#[tactic(auto, unfolding(crate::specs::SequenceRows::collection_action))]
pub fn ordered_message<H: Heap>(
    heap: &mut H,
    names: &Names,
    message: OfOrdered,
    receiver: Value,
    arguments: &[Value],
) -> Built
    requires receiver { IsOrdered (H.meaning heap.old).store receiver }
    requires argument { IsMeasured (H.meaning heap.old).store (first arguments.now) }
    ensures memory { H.meaning heap.new ≡ unless_out result (H.meaning heap.old) (memory_of (ordered_action (program_of names.now) (H.meaning heap.old).store message receiver arguments.now) (H.meaning heap.old)) }
    ensures answer { result ≡ unless_out result result (answer_of (ordered_action (program_of names.now) (H.meaning heap.old).store message receiver arguments.now) (H.meaning heap.old)) }
    ensures reserved { IsTrue H.reserved → is_out result ≡ false }
    ensures literals { H.literal_room heap.new ≡ H.literal_room heap.old }
{
    let Value::Object(object) = receiver else {
        return Built::Value(Value::Nil);
    };
    let argument = first_of(arguments);
    match message {
        OfOrdered::Add => add_last(heap, object, argument),
        OfOrdered::AddFirst => add_first(heap, object, argument),
        OfOrdered::AddAll => add_all(heap, names, object, argument),
        OfOrdered::RemoveFirst => remove_first(heap, object),
        OfOrdered::RemoveLast => remove_last(heap, object),
        OfOrdered::AddBeforeIndex => add_before(heap, object, argument, second_of(arguments)),
        OfOrdered::RemoveAtIndex => remove_index(heap, object, argument),
    }
}

/// Whether a value is no object or an OrderedCollection as the messages keep it.
#[tactic(auto, unfolding(crate::specs::Ordered::is_ordered))]
pub fn is_ordered<H: Heap>(heap: &H, value: Value) -> bool
    ensures test { result ≡ is_ordered (H.meaning heap.now).store value }
    ensures ordered { IsTrue result ↔ IsOrdered (H.meaning heap.now).store value }
{
    match value {
        Value::Object(object) => {
            heap.class_of(object) == ORDERED_COLLECTION
                && !heap.is_literal(object)
                && heap.length(object) <= heap.capacity(object)
        }
        _ => true,
    }
}
