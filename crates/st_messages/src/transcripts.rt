// Messages of the Transcript.
ghost use Rattle.std.specs.Prelude.{◌≡◌, false};
ghost use Rattle.st_code.specs.Program.{Program};
ghost use Rattle.st_collections.specs.TextRows.{transcript_action};
ghost use Rattle.st_messages.specs.Replies.{is_lost, memory_after, seen, told_by};
ghost use Rattle.st_messages.specs.Rows.{transcript_row};

use crate::arguments::first_of;
use crate::reply::{Reply, Written, answer_trouble};
use crate::row::OfTranscript;
use crate::values::is_text;
use object_heap::{Heap, Trouble, Value};

/// What the Transcript answers (section 5.10).
#[tactic(auto, unfolding(st_collections::specs::TextRows::transcript_action))]
pub fn transcript_message<H: Heap>(
    heap: &H,
    message: OfTranscript,
    receiver: Value,
    arguments: &[Value],
) -> Reply
    ensures reply { (p : Program) → seen p (H.meaning heap.now).store arguments.now result ≡ told_by (transcript_action p (H.meaning heap.now).store (transcript_row message) receiver arguments.now) (H.meaning heap.now) }
    ensures kept { (p : Program) → memory_after (transcript_action p (H.meaning heap.now).store (transcript_row message) receiver arguments.now) (H.meaning heap.now) ≡ H.meaning heap.now }
    ensures settled { is_lost result ≡ false }
{
    let argument = first_of(arguments);
    match message {
        OfTranscript::Show => {
            if is_text(heap, argument) {
                return Reply::Writes(Written::TextOf(argument), receiver);
            }
            answer_trouble(Trouble::StringExpected)
        }
        OfTranscript::NextPut => match argument {
            Value::Character(byte) => Reply::Writes(Written::Byte(byte), receiver),
            _ => answer_trouble(Trouble::CharacterExpected),
        },
        OfTranscript::Flush => Reply::Writes(Written::Nothing, receiver),
        OfTranscript::WriteByte(byte) => Reply::Writes(Written::Byte(byte), receiver),
    }
}
