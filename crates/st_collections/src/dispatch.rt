// What a message does at once.
ghost use Rattle.std.specs.Prelude.{◌≡◌, false, IsTrue};
ghost use Rattle.st_code.specs.Program.{Program};
ghost use Rattle.st_collections.specs.Actions.{first};
ghost use Rattle.st_collections.specs.Answers.{program_of, answer_of, memory_of, is_out, unless_out};
ghost use Rattle.st_collections.specs.AtOnce.{action_of, IsReceiver};
ghost use Rattle.st_collections.specs.Items.{IsMeasured};

use crate::answer::Built;
use crate::characters::character_message;
use crate::making::making_message;
use crate::message::CollectionMessage;
use crate::ordered::{is_ordered, ordered_message};
use crate::pairs::pair_message;
use crate::sequences::sequence_message;
use crate::strings::string_message;
use object_heap::{Heap, Value};
use st_names::Names;

/// Does what a message does at once and answers it. `names` has the texts of the symbols. All
/// cells that the message takes are one charge, which is tested before anything is written. An
/// argument that isn't there is nil.
pub fn collection_message<H: Heap>(
    heap: &mut H,
    names: &Names,
    message: CollectionMessage,
    receiver: Value,
    arguments: &[Value],
) -> Built
    requires receiver { IsMeasured (H.meaning heap.old).store receiver }
    requires ordered { IsReceiver (H.meaning heap.old).store message receiver }
    requires argument { IsMeasured (H.meaning heap.old).store (first arguments.now) }
    ensures memory { (p : Program) → p.names ≡ names.now → H.meaning heap.new ≡ unless_out result (H.meaning heap.old) (memory_of (action_of p (H.meaning heap.old).store message receiver arguments.now) (H.meaning heap.old)) }
    ensures answer { (p : Program) → p.names ≡ names.now → result ≡ unless_out result result (answer_of (action_of p (H.meaning heap.old).store message receiver arguments.now) (H.meaning heap.old)) }
    ensures reserved { IsTrue H.reserved → is_out result ≡ false }
    ensures literals { H.literal_room heap.new ≡ H.literal_room heap.old }
{
    at_once(heap, names, message, receiver, arguments)
}

// The same, for a program that has names alone.
fn at_once<H: Heap>(
    heap: &mut H,
    names: &Names,
    message: CollectionMessage,
    receiver: Value,
    arguments: &[Value],
) -> Built
    requires receiver { IsMeasured (H.meaning heap.old).store receiver }
    requires ordered { IsReceiver (H.meaning heap.old).store message receiver }
    requires argument { IsMeasured (H.meaning heap.old).store (first arguments.now) }
    ensures memory { H.meaning heap.new ≡ unless_out result (H.meaning heap.old) (memory_of (action_of (program_of names.now) (H.meaning heap.old).store message receiver arguments.now) (H.meaning heap.old)) }
    ensures answer { result ≡ unless_out result result (answer_of (action_of (program_of names.now) (H.meaning heap.old).store message receiver arguments.now) (H.meaning heap.old)) }
    ensures reserved { IsTrue H.reserved → is_out result ≡ false }
    ensures literals { H.literal_room heap.new ≡ H.literal_room heap.old }
{
    match message {
        CollectionMessage::Character(m) => character_message(heap, names, m, receiver, arguments),
        CollectionMessage::Sequence(m) => sequence_message(heap, names, m, receiver, arguments),
        CollectionMessage::Making(m) => making_message(heap, names, m, receiver, arguments),
        CollectionMessage::Ordered(m) => ordered_message(heap, names, m, receiver, arguments),
        CollectionMessage::Pair(m) => pair_message(heap, names, m, receiver),
        CollectionMessage::String(m) => string_message(heap, names, m, receiver, arguments),
    }
}

/// Whether a value may be the receiver of a message: of those that change an OrderedCollection, no
/// object or an OrderedCollection that is no literal and has no more elements than room.
pub fn is_receiver<H: Heap>(heap: &H, message: CollectionMessage, value: Value) -> bool
    ensures { IsTrue result → IsReceiver (H.meaning heap.now).store message value }
{
    match message {
        CollectionMessage::Ordered(_) => is_ordered(heap, value),
        _ => true,
    }
}
