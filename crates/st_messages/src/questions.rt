// Messages that ask what an object is: the same as another, of which class, what it understands.
ghost use Rattle.std.specs.Prelude.{◌≡◌, false};
ghost use Rattle.st_code.specs.Messages.{ObjectMessage};
ghost use Rattle.st_collections.specs.ObjectRows.{object_action};
ghost use Rattle.st_messages.specs.Levels.{kind_at, seen_level};
ghost use Rattle.st_messages.specs.Replies.{is_lost, memory_after, seen, told_by};
ghost use Rattle.st_messages.specs.Rows.{question_row};

use crate::arguments::first_of;
use crate::built_in::{CLASS, METACLASS, OBJECT};
use crate::facts::ProgramFacts;
use crate::level::{Level, class_now, level_now};
use crate::reply::{Reply, answer, answer_trouble, answer_truth};
use crate::row::OfQuestion;
use crate::values::{is_same, is_text};
use object_heap::{Heap, Trouble, Value};
use program_image::Side;

// Whether what has this level is of a class or metaclass, or of one above it.
fn is_kind<P: ProgramFacts>(program: &P, level: Level, class: Value) -> bool
    ensures { result ≡ kind_at (P.meaning program.now) (seen_level level) class }
{
    match class {
        Value::Class(class) => match level.side {
            Side::Instance => program.is_under(level.class, class),
            Side::Class => CLASS == class || OBJECT == class,
            Side::Meta => METACLASS == class || OBJECT == class,
        },
        Value::Meta(class) => match level.side {
            Side::Instance => false,
            Side::Class => program.is_under(level.class, class),
            Side::Meta => false,
        },
        _ => false,
    }
}

// `isKindOf:`.
#[tactic(auto, unfolding(st_collections::specs::ObjectRows::object_action))]
fn is_kind_of<H: Heap, P: ProgramFacts>(
    heap: &H,
    program: &P,
    receiver: Value,
    arguments: &[Value],
) -> Reply
    ensures reply { seen (P.meaning program.now) (H.meaning heap.now).store arguments.now result ≡ told_by (object_action (P.meaning program.now) (H.meaning heap.now).store ObjectMessage.IsKindOf receiver arguments.now) (H.meaning heap.now) }
    ensures kept { memory_after (object_action (P.meaning program.now) (H.meaning heap.now).store ObjectMessage.IsKindOf receiver arguments.now) (H.meaning heap.now) ≡ H.meaning heap.now }
    ensures settled { is_lost result ≡ false }
{
    let level = level_now(heap, receiver);
    answer_truth(is_kind(program, level, first_of(arguments)))
}

// `respondsTo:`.
#[tactic(auto, unfolding(st_collections::specs::ObjectRows::object_action))]
fn responds_to<H: Heap, P: ProgramFacts>(
    heap: &H,
    program: &P,
    receiver: Value,
    arguments: &[Value],
) -> Reply
    ensures reply { seen (P.meaning program.now) (H.meaning heap.now).store arguments.now result ≡ told_by (object_action (P.meaning program.now) (H.meaning heap.now).store ObjectMessage.RespondsTo receiver arguments.now) (H.meaning heap.now) }
    ensures kept { memory_after (object_action (P.meaning program.now) (H.meaning heap.now).store ObjectMessage.RespondsTo receiver arguments.now) (H.meaning heap.now) ≡ H.meaning heap.now }
    ensures settled { is_lost result ≡ false }
{
    let level = level_now(heap, receiver);
    match first_of(arguments) {
        Value::Symbol(name) => {
            answer_truth(program.find(level.side, level.class, name).is_some())
        }
        _ => answer_trouble(Trouble::SymbolExpected),
    }
}

/// What a message asks of any receiver (section 5.3.1).
#[tactic(auto, unfolding(st_collections::specs::ObjectRows::object_action))]
pub(crate) fn question<H: Heap, P: ProgramFacts>(
    heap: &H,
    program: &P,
    message: OfQuestion,
    receiver: Value,
    arguments: &[Value],
) -> Reply
    ensures reply { seen (P.meaning program.now) (H.meaning heap.now).store arguments.now result ≡ told_by (object_action (P.meaning program.now) (H.meaning heap.now).store (question_row message) receiver arguments.now) (H.meaning heap.now) }
    ensures kept { memory_after (object_action (P.meaning program.now) (H.meaning heap.now).store (question_row message) receiver arguments.now) (H.meaning heap.now) ≡ H.meaning heap.now }
    ensures settled { is_lost result ≡ false }
{
    let argument = first_of(arguments);
    match message {
        OfQuestion::Same => answer_truth(is_same(receiver, argument)),
        OfQuestion::NotSame => answer_truth(!is_same(receiver, argument)),
        OfQuestion::ClassOf => answer(class_now(heap, receiver)),
        OfQuestion::IsNil => answer_truth(is_same(receiver, Value::Nil)),
        OfQuestion::NotNil => answer_truth(!is_same(receiver, Value::Nil)),
        OfQuestion::IsString => answer_truth(is_text(heap, receiver)),
        OfQuestion::IsSymbol => match receiver {
            Value::Symbol(_) => answer(Value::True),
            _ => answer(Value::False),
        },
        OfQuestion::IsKindOf => is_kind_of(heap, program, receiver, arguments),
        OfQuestion::IsMemberOf => answer_truth(is_same(class_now(heap, receiver), argument)),
        OfQuestion::RespondsTo => responds_to(heap, program, receiver, arguments),
        OfQuestion::Hash => answer(Value::Integer(0)),
        OfQuestion::Yourself => answer(receiver),
    }
}
