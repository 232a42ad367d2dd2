// Messages of exceptions. A receiver that is no object answers nil.
ghost use Rattle.std.specs.Prelude.{◌≡◌, false, IsTrue};
ghost use Rattle.object_heap.specs.declared.value.Value.{Value};
ghost use Rattle.st_code.specs.Messages.{ExceptionMessage};
ghost use Rattle.st_rules.specs.ExceptionRows.{exception_action};
ghost use Rattle.st_messages.specs.Replies.{is_lost, memory_after, seen, told_by, unless_lost};
ghost use Rattle.st_messages.specs.Rows.{exception_row};

use crate::arguments::first_of;
use crate::exception_texts::exception_pieces;
use crate::facts::ProgramFacts;
use crate::pieces::Piece;
use crate::reply::{Reply, Written, answer, answer_truth};
use crate::row::OfException;
use crate::texts::new_text;
use object_heap::{Heap, Value};

// `messageText`.
#[tactic(auto, unfolding(st_rules::specs::ExceptionRows::exception_action, st_collections::specs::Kinds::slot_of, st_collections::specs::Kinds::slots_of, st_collections::specs::Actions::makes_string, st_collections::specs::Actions::makes_bytes))]
fn message_text<H: Heap, P: ProgramFacts>(
    heap: &mut H,
    program: &P,
    exception: u32,
    arguments: &[Value],
) -> Reply
    ensures memory { H.meaning heap.new ≡ unless_lost result (H.meaning heap.old) (memory_after (exception_action (P.meaning program.now) (H.meaning heap.old).store ExceptionMessage.MessageText (Value.Object exception) arguments.now) (H.meaning heap.old)) }
    ensures reply { let said = seen (P.meaning program.now) (H.meaning heap.old).store arguments.now result in said ≡ unless_lost result said (told_by (exception_action (P.meaning program.now) (H.meaning heap.old).store ExceptionMessage.MessageText (Value.Object exception) arguments.now) (H.meaning heap.old)) }
    ensures reserved { IsTrue H.reserved → is_lost result ≡ false }
    ensures literals { H.literal_room heap.new ≡ H.literal_room heap.old }
{
    let kept = heap.get(exception, 0);
    match kept {
        Value::Nil => {
            let pieces = exception_pieces(heap, program, exception);
            Reply::Answer(new_text(heap, program, &pieces))
        }
        _ => answer(kept),
    }
}

// `description`.
#[tactic(auto, unfolding(st_rules::specs::ExceptionRows::exception_action, st_collections::specs::Actions::makes_string, st_collections::specs::Actions::makes_bytes))]
fn description<H: Heap, P: ProgramFacts>(
    heap: &mut H,
    program: &P,
    exception: u32,
    arguments: &[Value],
) -> Reply
    ensures memory { H.meaning heap.new ≡ unless_lost result (H.meaning heap.old) (memory_after (exception_action (P.meaning program.now) (H.meaning heap.old).store ExceptionMessage.Description (Value.Object exception) arguments.now) (H.meaning heap.old)) }
    ensures reply { let said = seen (P.meaning program.now) (H.meaning heap.old).store arguments.now result in said ≡ unless_lost result said (told_by (exception_action (P.meaning program.now) (H.meaning heap.old).store ExceptionMessage.Description (Value.Object exception) arguments.now) (H.meaning heap.old)) }
    ensures reserved { IsTrue H.reserved → is_lost result ≡ false }
    ensures literals { H.literal_room heap.new ≡ H.literal_room heap.old }
{
    let class = heap.class_of(exception);
    Reply::Answer(new_text(heap, program, &[Piece::ClassName(class)]))
}

/// What an exception answers (section 5.5).
#[tactic(auto, unfolding(st_rules::specs::ExceptionRows::exception_action))]
pub fn exception_message<H: Heap, P: ProgramFacts>(
    heap: &mut H,
    program: &P,
    message: OfException,
    receiver: Value,
    arguments: &[Value],
) -> Reply
    ensures memory { H.meaning heap.new ≡ unless_lost result (H.meaning heap.old) (memory_after (exception_action (P.meaning program.now) (H.meaning heap.old).store (exception_row message) receiver arguments.now) (H.meaning heap.old)) }
    ensures reply { let said = seen (P.meaning program.now) (H.meaning heap.old).store arguments.now result in said ≡ unless_lost result said (told_by (exception_action (P.meaning program.now) (H.meaning heap.old).store (exception_row message) receiver arguments.now) (H.meaning heap.old)) }
    ensures reserved { IsTrue H.reserved → is_lost result ≡ false }
    ensures literals { H.literal_room heap.new ≡ H.literal_room heap.old }
{
    let Value::Object(exception) = receiver else {
        return answer(Value::Nil);
    };
    let argument = first_of(arguments);
    match message {
        OfException::Signal => Reply::Raises(exception),
        OfException::SignalText => {
            heap.put(exception, 0, argument);
            Reply::Raises(exception)
        }
        OfException::MessageText => message_text(heap, program, exception, arguments),
        OfException::SetMessageText => {
            heap.put(exception, 0, argument);
            answer(receiver)
        }
        OfException::Description => description(heap, program, exception, arguments),
        OfException::Controls(control) => Reply::Controls(control, exception, argument),
        OfException::IsResumable(resumable) => answer_truth(resumable),
        OfException::TerminatesProgram => Reply::Terminates(receiver),
        OfException::AnswersNil => answer(Value::Nil),
        OfException::Warns => Reply::Writes(Written::Warning(exception), Value::Nil),
    }
}
