// Loop messages: each begins its loop, or answers what is wrong with its arguments.
ghost use Rattle.std.specs.Prelude.{◌≡◌, false};
ghost use Rattle.object_heap.specs.Charges.{Memory};
ghost use Rattle.object_heap.specs.Store.{Store};
ghost use Rattle.st_code.specs.Program.{Program};
ghost use Rattle.st_collections.specs.Loops.{loop_action};
ghost use Rattle.st_loops.specs.Kinds.{message_of};
ghost use Rattle.st_messages.specs.Replies.{is_lost, memory_after, seen, told_by};

use crate::reply::{Reply, answer_trouble};
use object_heap::Value;
use st_loops::{LoopKind, first_trouble};

/// What a loop message does at once (sections 5.4.3 and 5.7).
pub fn loop_reply(kind: LoopKind, receiver: Value, arguments: &[Value]) -> Reply
    ensures reply { (p : Program) (s : Store) (m : Memory) → seen p s arguments.now result ≡ told_by (loop_action p s (message_of kind) receiver arguments.now) m }
    ensures kept { (p : Program) (s : Store) (m : Memory) → memory_after (loop_action p s (message_of kind) receiver arguments.now) m ≡ m }
    ensures settled { is_lost result ≡ false }
{
    match first_trouble(kind, arguments) {
        Some(trouble) => answer_trouble(trouble),
        None => Reply::Iterates(kind, receiver),
    }
}
