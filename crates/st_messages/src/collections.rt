// Messages of characters, strings and collections.
ghost use Rattle.std.specs.Prelude.{◌≡◌, false, IsTrue};
ghost use Rattle.st_collections.specs.Actions.{first};
ghost use Rattle.st_collections.specs.AtOnce.{action_of, IsReceiver};
ghost use Rattle.st_collections.specs.Items.{IsMeasured};
ghost use Rattle.st_messages.specs.Replies.{is_lost, memory_after, seen, told_by, unless_lost};

use crate::facts::ProgramFacts;
use crate::reply::Reply;
use object_heap::{Heap, Value};
use st_collections::{CollectionMessage, collection_message};

/// What a character, a string or a collection answers (sections 5.4 and 5.7).
pub fn collection_reply<H: Heap, P: ProgramFacts>(
    heap: &mut H,
    program: &P,
    message: CollectionMessage,
    receiver: Value,
    arguments: &[Value],
) -> Reply
    requires receiver { IsMeasured (H.meaning heap.old).store receiver }
    requires ordered { IsReceiver (H.meaning heap.old).store message receiver }
    requires argument { IsMeasured (H.meaning heap.old).store (first arguments.now) }
    ensures memory { H.meaning heap.new ≡ unless_lost result (H.meaning heap.old) (memory_after (action_of (P.meaning program.now) (H.meaning heap.old).store message receiver arguments.now) (H.meaning heap.old)) }
    ensures reply { let said = seen (P.meaning program.now) (H.meaning heap.old).store arguments.now result in said ≡ unless_lost result said (told_by (action_of (P.meaning program.now) (H.meaning heap.old).store message receiver arguments.now) (H.meaning heap.old)) }
    ensures reserved { IsTrue H.reserved → is_lost result ≡ false }
    ensures literals { H.literal_room heap.new ≡ H.literal_room heap.old }
{
    Reply::Answer(collection_message(heap, program.names(), message, receiver, arguments))
}
