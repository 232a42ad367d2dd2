// The indexed variables of classes of the file.
ghost use Rattle.std.specs.Prelude.{◌≡◌, false, IsTrue, List, if◌then◌else◌};
ghost use Rattle.object_heap.specs.declared.value.Value.{Value};
ghost use Rattle.st_code.specs.Messages.{ObjectMessage};
ghost use Rattle.st_code.specs.Program.{NoIndexes, Program, class_at};
ghost use Rattle.st_code.specs.Written.{indexed_by};
ghost use Rattle.st_collections.specs.ObjectRows.{byte_put, object_action};
ghost use Rattle.st_messages.specs.Replies.{is_lost, memory_after, seen, told_by, unless_lost};

use crate::arguments::{first_of, place_of, second_of};
use crate::facts::ProgramFacts;
use crate::reply::{Reply, answer, answer_trouble};
use object_heap::{Heap, Trouble, Value};
use st_tree::units::Indexed;

// How the instances of a class of the file are indexed.
fn index_kind<P: ProgramFacts>(program: &P, class: u32) -> Indexed
    ensures { indexed_by result ≡ (if (class_at (P.meaning program.now) class).in_file then (class_at (P.meaning program.now) class).indexed else NoIndexes) }
{
    if program.is_in_file(class) {
        return program.indexed(class);
    }
    Indexed::None
}

/// `size`.
#[tactic(auto, unfolding(st_collections::specs::ObjectRows::object_action))]
pub(crate) fn size<H: Heap, P: ProgramFacts>(
    heap: &H,
    program: &P,
    receiver: Value,
    arguments: &[Value],
) -> Reply
    ensures reply { seen (P.meaning program.now) (H.meaning heap.now).store arguments.now result ≡ told_by (object_action (P.meaning program.now) (H.meaning heap.now).store ObjectMessage.Size receiver arguments.now) (H.meaning heap.now) }
    ensures kept { memory_after (object_action (P.meaning program.now) (H.meaning heap.now).store ObjectMessage.Size receiver arguments.now) (H.meaning heap.now) ≡ H.meaning heap.now }
    ensures settled { is_lost result ≡ false }
{
    let Value::Object(object) = receiver else {
        return answer_trouble(Trouble::NotIndexed);
    };
    let class = heap.class_of(object);
    let named = program.slot_count(class);
    match index_kind(program, class) {
        Indexed::None => answer_trouble(Trouble::NotIndexed),
        Indexed::Object => {
            let size = heap.length(object).saturating_sub(named);
            answer(Value::Integer(size as i128))
        }
        Indexed::Byte => answer(Value::Integer(heap.byte_length(object) as i128)),
    }
}

/// `at:`.
#[tactic(auto, unfolding(st_collections::specs::ObjectRows::object_action))]
pub(crate) fn at<H: Heap, P: ProgramFacts>(
    heap: &H,
    program: &P,
    receiver: Value,
    arguments: &[Value],
) -> Reply
    ensures reply { seen (P.meaning program.now) (H.meaning heap.now).store arguments.now result ≡ told_by (object_action (P.meaning program.now) (H.meaning heap.now).store ObjectMessage.At receiver arguments.now) (H.meaning heap.now) }
    ensures kept { memory_after (object_action (P.meaning program.now) (H.meaning heap.now).store ObjectMessage.At receiver arguments.now) (H.meaning heap.now) ≡ H.meaning heap.now }
    ensures settled { is_lost result ≡ false }
{
    let Value::Object(object) = receiver else {
        return answer_trouble(Trouble::NotIndexed);
    };
    let class = heap.class_of(object);
    let named = program.slot_count(class);
    let index = first_of(arguments);
    match index_kind(program, class) {
        Indexed::None => answer_trouble(Trouble::NotIndexed),
        Indexed::Object => match place_of(index, heap.length(object).saturating_sub(named)) {
            Ok(place) => answer(heap.get(object, named + place)),
            Err(trouble) => answer_trouble(trouble),
        },
        Indexed::Byte => match place_of(index, heap.byte_length(object)) {
            Ok(place) => answer(Value::Integer(heap.get_byte(object, place) as i128)),
            Err(trouble) => answer_trouble(trouble),
        },
    }
}

// Writes a byte of an object.
fn put_byte<H: Heap>(heap: &mut H, object: u32, place: u32, value: Value) -> Reply
    ensures memory { H.meaning heap.new ≡ memory_after (byte_put (H.meaning heap.old).store object place value) (H.meaning heap.old) }
    ensures reply { (p : Program) (args : List Value) → seen p (H.meaning heap.old).store args result ≡ told_by (byte_put (H.meaning heap.old).store object place value) (H.meaning heap.old) }
    ensures settled { is_lost result ≡ false }
    ensures literals { H.literal_room heap.new ≡ H.literal_room heap.old }
{
    match value {
        Value::Integer(byte @ 0..=255) => {
            heap.put_byte(object, place, byte as u8);
            answer(value)
        }
        _ => answer_trouble(Trouble::ByteExpected),
    }
}

/// `at:put:`.
#[tactic(auto, unfolding(st_collections::specs::ObjectRows::object_action))]
pub(crate) fn at_put<H: Heap, P: ProgramFacts>(
    heap: &mut H,
    program: &P,
    receiver: Value,
    arguments: &[Value],
) -> Reply
    ensures memory { H.meaning heap.new ≡ unless_lost result (H.meaning heap.old) (memory_after (object_action (P.meaning program.now) (H.meaning heap.old).store ObjectMessage.AtPut receiver arguments.now) (H.meaning heap.old)) }
    ensures reply { let said = seen (P.meaning program.now) (H.meaning heap.old).store arguments.now result in said ≡ unless_lost result said (told_by (object_action (P.meaning program.now) (H.meaning heap.old).store ObjectMessage.AtPut receiver arguments.now) (H.meaning heap.old)) }
    ensures reserved { IsTrue H.reserved → is_lost result ≡ false }
    ensures literals { H.literal_room heap.new ≡ H.literal_room heap.old }
{
    let Value::Object(object) = receiver else {
        return answer_trouble(Trouble::NotIndexed);
    };
    let class = heap.class_of(object);
    let named = program.slot_count(class);
    let index = first_of(arguments);
    let value = second_of(arguments);
    match index_kind(program, class) {
        Indexed::None => answer_trouble(Trouble::NotIndexed),
        Indexed::Object => match place_of(index, heap.length(object).saturating_sub(named)) {
            Ok(place) => {
                heap.put(object, named + place, value);
                answer(value)
            }
            Err(trouble) => answer_trouble(trouble),
        },
        Indexed::Byte => match place_of(index, heap.byte_length(object)) {
            Ok(place) => put_byte(heap, object, place, value),
            Err(trouble) => answer_trouble(trouble),
        },
    }
}
