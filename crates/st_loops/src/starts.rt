// The state in which a loop begins.
ghost use Rattle.std.specs.Prelude.{◌≡◌, IsTrue, IfSome, IsSome};
ghost use Rattle.st_collections.specs.Answers.{program_of};
ghost use Rattle.st_collections.specs.Items.{IsMeasured};
ghost use Rattle.st_loops.specs.Kinds.{message_of};
ghost use Rattle.st_loops.specs.Starts.{started};
ghost use Rattle.st_loops.specs.States.{state_of, values_of};

use crate::counts::integer_of;
use crate::kind::LoopKind;
use crate::places::size_now;
use crate::state::{Arguments, LoopState};
use object_heap::{Heap, Value};
use st_names::Names;

/// The state in which a loop begins, or None where the heap wanted memory.
pub fn start<H: Heap>(
    heap: &mut H,
    names: &Names,
    kind: LoopKind,
    receiver: Value,
    arguments: Arguments,
) -> Option<LoopState>
    requires { IsMeasured (H.meaning heap.old).store receiver }
    ensures memory { H.meaning heap.new ≡ H.meaning heap.old }
    ensures state { IfSome result (λ l. state_of l ≡ started (program_of names.now) (H.meaning heap.old).store (message_of kind) receiver (values_of arguments)) }
    ensures kind { IfSome result (λ l. l.kind ≡ kind) }
    ensures receiver { IfSome result (λ l. l.receiver ≡ receiver) }
    ensures reserved { IsTrue H.reserved → IsSome result }
    ensures literals { H.literal_room heap.new ≡ H.literal_room heap.old }
{
    let fresh = LoopState {
        kind,
        receiver,
        arguments,
        index: 1,
        made: Value::Nil,
        visited: Value::Nil,
        aside: false,
    };
    match kind {
        LoopKind::WhileTrue | LoopKind::WhileFalse | LoopKind::NotEqual => {
            Some(fresh.at_index(0))
        }
        LoopKind::ToDo | LoopKind::ToByDo => Some(fresh.at_index(integer_of(receiver))),
        LoopKind::ReverseDo => match size_now(heap, names, receiver) {
            Some(size) => Some(fresh.at_index(size)),
            None => None,
        },
        LoopKind::InjectInto => Some(fresh.made_to(arguments.first())),
        LoopKind::OccurrencesOf => Some(fresh.made_to(Value::Integer(0))),
        _ => Some(fresh),
    }
}
