// `ifTrue:` and its kin.
ghost use Rattle.std.specs.Prelude.{◌≡◌, ◌&&◌, [], IfSome};
ghost use Rattle.st_sprint.specs.Dashes.{Finds};
ghost use Rattle.st_sprint.specs.Sprinting.{SameRun};
ghost use Rattle.st_code.specs.Lookup.{BuiltIn};
ghost use Rattle.st_code.specs.Messages.{Booleans};
ghost use Rattle.st_collections.specs.ObjectRows.{boolean_action};
ghost use Rattle.st_collections.specs.Actions.{Begins, first};
ghost use Rattle.st_collections.specs.Items.{is_measured};
ghost use Rattle.st_machine.specs.declared.work.Mode.TheVariants.{Run};
ghost use Rattle.st_machine.specs.declared.work.Work.TheVariants as works;
ghost use Rattle.st_machine.specs.Seen.{with_passed, passing};
ghost use Rattle.st_machine.specs.Opening.{beginning};
ghost use Rattle.st_messages.specs.Rows.{boolean_row};

use crate::budget::Budget;
use crate::messages::send_built_in;
use crate::sends::begin_send;
use crate::works::apply;
use object_heap::{Heap, Value};
use st_collections::is_measured;
use st_contexts::Env;
use st_machine::Machine;
use st_messages::{MessageRow, OfBoolean};

// The branch that a Boolean chooses.
#[tactic(auto, unfolding(st_collections::specs::ObjectRows::boolean_action))]
fn branch_of(message: OfBoolean, receiver: Value, arguments: &[Value]) -> Option<Value>
    ensures { IfSome result (λ v. boolean_action (boolean_row message) receiver arguments.now ≡ Begins v []) }
{
    match (message, receiver, arguments) {
        (OfBoolean::IfTrue, Value::True, [first]) => Some(*first),
        (OfBoolean::IfFalse, Value::False, [first]) => Some(*first),
        (OfBoolean::IfTrueIfFalse, Value::True, [first, _]) => Some(*first),
        (OfBoolean::IfTrueIfFalse, Value::False, [_, second]) => Some(*second),
        (OfBoolean::IfFalseIfTrue, Value::False, [first, _]) => Some(*first),
        (OfBoolean::IfFalseIfTrue, Value::True, [_, second]) => Some(*second),
        _ => None,
    }
}

// Whether the store is sound for a receiver and the first of the values that are passed on.
#[tactic(auto, unfolding(st_collections::specs::Items::is_measured))]
fn are_sound<H: Heap>(machine: &Machine<H>, receiver: Value) -> bool
    ensures { result ≡ (is_measured machine.now.memory.store receiver && is_measured machine.now.memory.store (first machine.now.passed.values)) }
{
    match machine.passed.values() {
        [first, ..] => is_measured(&machine.heap, receiver) && is_measured(&machine.heap, *first),
        [] => is_measured(&machine.heap, receiver),
    }
}

/// Nothing is passed on.
pub fn pass_nothing<H: Heap>(machine: &mut Machine<H>)
    ensures { machine.new ≡ with_passed machine.old (passing [] machine.old.passed) }
{
    machine.passed.clear();
}

/// `ifTrue:` and its kin.
pub fn send_boolean<H: Heap>(
    machine: &mut Machine<H>,
    message: OfBoolean,
    selector: u32,
    receiver: Value,
    env: Env,
    budget: Budget,
) -> Budget
    requires runs { machine.old.mode ≡ Run }
    requires finds { Finds (BuiltIn (Booleans (boolean_row message))) selector receiver machine.old }
    ensures { SameRun budget.steps budget.turns (beginning (works.SendTo selector receiver env) machine.old) result.steps result.turns machine.new }
{
    if budget.steps == 0 {
        return begin_send(machine, selector, receiver, env, budget);
    }
    match branch_of(message, receiver, machine.passed.values()) {
        Some(block) => {
            if are_sound(machine, receiver) {
                if machine.step() {
                    pass_nothing(machine);
                    return apply(machine, block, env, budget.after_step());
                }
            }
            begin_send(machine, selector, receiver, env, budget)
        }
        None => {
            let row = MessageRow::Boolean(message);
            send_built_in(machine, row, selector, receiver, env, budget)
        }
    }
}
