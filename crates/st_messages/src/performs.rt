// `perform:` and its kin.
ghost use Rattle.std.specs.Prelude.{◌≡◌, false};
ghost use Rattle.st_code.specs.Messages.{ObjectMessage};
ghost use Rattle.st_collections.specs.ObjectRows.{object_action};
ghost use Rattle.st_messages.specs.Replies.{is_lost, memory_after, seen, told_by};

use crate::arguments::{first_of, second_of};
use crate::facts::ProgramFacts;
use crate::reply::{Passed, Reply, answer_trouble};
use crate::spelling::{arity_of, name_of};
use crate::values::{is_array, slots_now};
use object_heap::{Heap, Trouble, Value};

/// `perform:`, `perform:with:` and `perform:with:with:`.
#[tactic(auto, unfolding(st_collections::specs::ObjectRows::object_action))]
pub(crate) fn perform<H: Heap, P: ProgramFacts>(
    heap: &H,
    program: &P,
    receiver: Value,
    arguments: &[Value],
) -> Reply
    ensures reply { seen (P.meaning program.now) (H.meaning heap.now).store arguments.now result ≡ told_by (object_action (P.meaning program.now) (H.meaning heap.now).store ObjectMessage.Perform receiver arguments.now) (H.meaning heap.now) }
    ensures kept { memory_after (object_action (P.meaning program.now) (H.meaning heap.now).store ObjectMessage.Perform receiver arguments.now) (H.meaning heap.now) ≡ H.meaning heap.now }
    ensures settled { is_lost result ≡ false }
{
    let Value::Symbol(name) = first_of(arguments) else {
        return answer_trouble(Trouble::SymbolExpected);
    };
    if arity_of(name_of(program, name)) == arguments.len().saturating_sub(1) {
        return Reply::Sends(name, receiver, Passed::Behind);
    }
    answer_trouble(Trouble::WrongNumberOfArguments)
}

/// `perform:withArguments:`.
#[tactic(auto, unfolding(st_collections::specs::ObjectRows::object_action))]
pub(crate) fn perform_with<H: Heap, P: ProgramFacts>(
    heap: &H,
    program: &P,
    receiver: Value,
    arguments: &[Value],
) -> Reply
    ensures reply { seen (P.meaning program.now) (H.meaning heap.now).store arguments.now result ≡ told_by (object_action (P.meaning program.now) (H.meaning heap.now).store ObjectMessage.PerformWithArguments receiver arguments.now) (H.meaning heap.now) }
    ensures kept { memory_after (object_action (P.meaning program.now) (H.meaning heap.now).store ObjectMessage.PerformWithArguments receiver arguments.now) (H.meaning heap.now) ≡ H.meaning heap.now }
    ensures settled { is_lost result ≡ false }
{
    let Value::Symbol(name) = first_of(arguments) else {
        return answer_trouble(Trouble::SymbolExpected);
    };
    let array = second_of(arguments);
    if !is_array(heap, array) {
        return answer_trouble(Trouble::CollectionExpected);
    }
    if arity_of(name_of(program, name)) as u64 == slots_now(heap, array) as u64 {
        return Reply::Sends(name, receiver, Passed::SlotsOf(array));
    }
    answer_trouble(Trouble::WrongNumberOfArguments)
}
