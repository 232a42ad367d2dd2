// Messages of every object.
ghost use Rattle.std.specs.Prelude.{◌≡◌, false, IsTrue};
ghost use Rattle.st_code.specs.Messages.{ObjectMessage};
ghost use Rattle.st_collections.specs.ObjectRows.{object_action};
ghost use Rattle.st_messages.specs.Replies.{is_lost, memory_after, seen, told_by, unless_lost};
ghost use Rattle.st_messages.specs.Rows.{object_row};

use crate::arguments::first_of;
use crate::built_in::{ERROR, MESSAGE_NOT_UNDERSTOOD, STRING};
use crate::copies::new_copy;
use crate::facts::ProgramFacts;
use crate::indexed::{at, at_put, size};
use crate::performs::{perform, perform_with};
use crate::pieces::Piece;
use crate::printed::print_string;
use crate::questions::question;
use crate::reply::{Passed, Reply, answer, answer_trouble};
use crate::row::OfObject;
use crate::texts::new_text;
use object_heap::{Heap, Trouble, Value};

// `copy`.
#[tactic(auto, unfolding(st_collections::specs::ObjectRows::object_action))]
fn copy<H: Heap, P: ProgramFacts>(
    heap: &mut H,
    program: &P,
    receiver: Value,
    arguments: &[Value],
) -> Reply
    ensures memory { H.meaning heap.new ≡ unless_lost result (H.meaning heap.old) (memory_after (object_action (P.meaning program.now) (H.meaning heap.old).store ObjectMessage.Copy receiver arguments.now) (H.meaning heap.old)) }
    ensures reply { let said = seen (P.meaning program.now) (H.meaning heap.old).store arguments.now result in said ≡ unless_lost result said (told_by (object_action (P.meaning program.now) (H.meaning heap.old).store ObjectMessage.Copy receiver arguments.now) (H.meaning heap.old)) }
    ensures reserved { IsTrue H.reserved → is_lost result ≡ false }
    ensures literals { H.literal_room heap.new ≡ H.literal_room heap.old }
{
    match receiver {
        Value::Object(object) => Reply::Answer(new_copy(heap, object)),
        _ => answer(receiver),
    }
}

// `printString`.
#[tactic(auto, unfolding(st_collections::specs::ObjectRows::object_action, st_collections::specs::Actions::makes_string, st_collections::specs::Actions::makes_bytes))]
fn print<H: Heap, P: ProgramFacts>(
    heap: &mut H,
    program: &P,
    receiver: Value,
    arguments: &[Value],
) -> Reply
    ensures memory { H.meaning heap.new ≡ unless_lost result (H.meaning heap.old) (memory_after (object_action (P.meaning program.now) (H.meaning heap.old).store ObjectMessage.PrintString receiver arguments.now) (H.meaning heap.old)) }
    ensures reply { let said = seen (P.meaning program.now) (H.meaning heap.old).store arguments.now result in said ≡ unless_lost result said (told_by (object_action (P.meaning program.now) (H.meaning heap.old).store ObjectMessage.PrintString receiver arguments.now) (H.meaning heap.old)) }
    ensures reserved { IsTrue H.reserved → is_lost result ≡ false }
    ensures literals { H.literal_room heap.new ≡ H.literal_room heap.old }
{
    Reply::Answer(print_string(heap, program, receiver))
}

// `displayString`.
#[tactic(auto, unfolding(st_collections::specs::ObjectRows::object_action, st_collections::specs::Kinds::bytes_of, st_collections::specs::Actions::makes_string, st_collections::specs::Actions::makes_bytes))]
fn display<H: Heap, P: ProgramFacts>(
    heap: &mut H,
    program: &P,
    receiver: Value,
    arguments: &[Value],
) -> Reply
    ensures memory { H.meaning heap.new ≡ unless_lost result (H.meaning heap.old) (memory_after (object_action (P.meaning program.now) (H.meaning heap.old).store ObjectMessage.DisplayString receiver arguments.now) (H.meaning heap.old)) }
    ensures reply { let said = seen (P.meaning program.now) (H.meaning heap.old).store arguments.now result in said ≡ unless_lost result said (told_by (object_action (P.meaning program.now) (H.meaning heap.old).store ObjectMessage.DisplayString receiver arguments.now) (H.meaning heap.old)) }
    ensures reserved { IsTrue H.reserved → is_lost result ≡ false }
    ensures literals { H.literal_room heap.new ≡ H.literal_room heap.old }
{
    match receiver {
        Value::Character(byte) => Reply::Answer(new_text(heap, program, &[Piece::Byte(byte)])),
        Value::Symbol(name) => Reply::Answer(new_text(heap, program, &[Piece::Name(name)])),
        Value::Object(object) => {
            if heap.class_of(object) == STRING {
                return Reply::Answer(new_text(heap, program, &[Piece::Bytes(object)]));
            }
            Reply::Sends(program.name_number(b"printString"), receiver, Passed::None)
        }
        _ => Reply::Sends(program.name_number(b"printString"), receiver, Passed::None),
    }
}

/// What any object answers (section 5.3.1).
#[tactic(auto, unfolding(st_collections::specs::ObjectRows::object_action))]
pub fn object_message<H: Heap, P: ProgramFacts>(
    heap: &mut H,
    program: &P,
    message: OfObject,
    receiver: Value,
    arguments: &[Value],
) -> Reply
    ensures memory { H.meaning heap.new ≡ unless_lost result (H.meaning heap.old) (memory_after (object_action (P.meaning program.now) (H.meaning heap.old).store (object_row message) receiver arguments.now) (H.meaning heap.old)) }
    ensures reply { let said = seen (P.meaning program.now) (H.meaning heap.old).store arguments.now result in said ≡ unless_lost result said (told_by (object_action (P.meaning program.now) (H.meaning heap.old).store (object_row message) receiver arguments.now) (H.meaning heap.old)) }
    ensures reserved { IsTrue H.reserved → is_lost result ≡ false }
    ensures literals { H.literal_room heap.new ≡ H.literal_room heap.old }
{
    match message {
        OfObject::Question(m) => question(heap, program, m, receiver, arguments),
        OfObject::Copy => copy(heap, program, receiver, arguments),
        OfObject::PrintString => print(heap, program, receiver, arguments),
        OfObject::DisplayString => display(heap, program, receiver, arguments),
        OfObject::Size => size(heap, program, receiver, arguments),
        OfObject::At => at(heap, program, receiver, arguments),
        OfObject::AtPut => at_put(heap, program, receiver, arguments),
        OfObject::ErrorText => Reply::RaisesNew(ERROR, Passed::One(first_of(arguments))),
        OfObject::SubclassResponsibility => answer_trouble(Trouble::SubclassResponsibility),
        OfObject::NotUnderstood => {
            let slots = Passed::Three(Value::Nil, first_of(arguments), receiver);
            Reply::RaisesNew(MESSAGE_NOT_UNDERSTOOD, slots)
        }
        OfObject::Perform => perform(heap, program, receiver, arguments),
        OfObject::PerformWithArguments => perform_with(heap, program, receiver, arguments),
    }
}
