// Messages of Booleans. A receiver that is no Boolean counts as false.
ghost use Rattle.std.specs.Prelude.{◌≡◌, false};
ghost use Rattle.object_heap.specs.Charges.{Memory};
ghost use Rattle.st_code.specs.Program.{Program};
ghost use Rattle.st_collections.specs.ObjectRows.{boolean_action};
ghost use Rattle.st_messages.specs.Replies.{is_lost, memory_after, seen, told_by};
ghost use Rattle.st_messages.specs.Rows.{boolean_row};

use crate::arguments::{first_of, second_of};
use crate::reply::{Passed, Reply, answer, answer_trouble, answer_truth};
use crate::row::OfBoolean;
use crate::values::is_true;
use object_heap::{Trouble, Value};

/// What a Boolean answers (section 5.3.3).
#[tactic(auto, unfolding(st_collections::specs::ObjectRows::boolean_action))]
pub fn boolean_message(message: OfBoolean, receiver: Value, arguments: &[Value]) -> Reply
    ensures reply { (p : Program) (m : Memory) → seen p m.store arguments.now result ≡ told_by (boolean_action (boolean_row message) receiver arguments.now) m }
    ensures kept { (m : Memory) → memory_after (boolean_action (boolean_row message) receiver arguments.now) m ≡ m }
    ensures settled { is_lost result ≡ false }
{
    let holds = is_true(receiver);
    let argument = first_of(arguments);
    match message {
        OfBoolean::And => match argument {
            Value::True => answer_truth(holds),
            Value::False => answer_truth(false),
            _ => answer_trouble(Trouble::BooleanExpected),
        },
        OfBoolean::Or => match argument {
            Value::True => answer_truth(true),
            Value::False => answer_truth(holds),
            _ => answer_trouble(Trouble::BooleanExpected),
        },
        OfBoolean::Xor => match argument {
            Value::True => answer_truth(!holds),
            Value::False => answer_truth(holds),
            _ => answer_trouble(Trouble::BooleanExpected),
        },
        OfBoolean::Not => answer_truth(!holds),
        OfBoolean::AndThen => {
            if holds {
                return Reply::Begins(argument, Passed::None);
            }
            answer(receiver)
        }
        OfBoolean::OrElse => {
            if holds {
                return answer(receiver);
            }
            Reply::Begins(argument, Passed::None)
        }
        OfBoolean::IfTrue => {
            if holds {
                return Reply::Begins(argument, Passed::None);
            }
            answer(Value::Nil)
        }
        OfBoolean::IfFalse => {
            if holds {
                return answer(Value::Nil);
            }
            Reply::Begins(argument, Passed::None)
        }
        OfBoolean::IfTrueIfFalse => {
            if holds {
                return Reply::Begins(argument, Passed::None);
            }
            Reply::Begins(second_of(arguments), Passed::None)
        }
        OfBoolean::IfFalseIfTrue => {
            if holds {
                return Reply::Begins(second_of(arguments), Passed::None);
            }
            Reply::Begins(argument, Passed::None)
        }
    }
}
