// Messages of Blocks. A receiver that is no block answers nil.
ghost use Rattle.std.specs.Prelude.{◌≡◌, false};
ghost use Rattle.st_rules.specs.ExceptionRows.{block_action};
ghost use Rattle.st_messages.specs.Replies.{block_reply, is_lost, memory_after, seen, told_by};
ghost use Rattle.st_messages.specs.Rows.{block_row};

use crate::arguments::{first_of, second_of};
use crate::facts::ProgramFacts;
use crate::reply::{Passed, Reply, answer, answer_trouble};
use crate::row::OfBlock;
use crate::values::{closure_now, is_array, slots_now};
use object_heap::{Closure, Heap, Trouble, Value};

// What a block does with so many values.
fn applied(closure: Closure, parameters: u32, count: u64, passed: Passed) -> Reply
    ensures { result ≡ block_reply closure parameters count passed }
{
    if parameters as u64 == count {
        return Reply::Activates(closure, passed);
    }
    answer_trouble(Trouble::WrongNumberOfArguments)
}

/// What a Block answers (section 5.4.3).
#[tactic(auto, unfolding(st_rules::specs::ExceptionRows::block_action))]
pub fn block_message<H: Heap, P: ProgramFacts>(
    heap: &H,
    program: &P,
    message: OfBlock,
    receiver: Value,
    arguments: &[Value],
) -> Reply
    ensures reply { seen (P.meaning program.now) (H.meaning heap.now).store arguments.now result ≡ told_by (block_action (P.meaning program.now) (H.meaning heap.now).store (block_row message) receiver arguments.now) (H.meaning heap.now) }
    ensures kept { memory_after (block_action (P.meaning program.now) (H.meaning heap.now).store (block_row message) receiver arguments.now) (H.meaning heap.now) ≡ H.meaning heap.now }
    ensures settled { is_lost result ≡ false }
{
    let Some(closure) = closure_now(heap, receiver) else {
        return answer(Value::Nil);
    };
    let argument = first_of(arguments);
    let parameters = program.parameters(closure.code);
    match message {
        OfBlock::Value => applied(closure, parameters, arguments.len() as u64, Passed::All),
        OfBlock::ValueWithArguments => {
            if !is_array(heap, argument) {
                return answer_trouble(Trouble::CollectionExpected);
            }
            let count = slots_now(heap, argument) as u64;
            applied(closure, parameters, count, Passed::SlotsOf(argument))
        }
        OfBlock::NumArgs => answer(Value::Integer(parameters as i128)),
        OfBlock::OnDo => Reply::Guards(receiver, argument, second_of(arguments)),
        OfBlock::Ensure => Reply::Ensures(receiver, argument),
        OfBlock::IfCurtailed => Reply::Curtails(receiver, argument),
    }
}
