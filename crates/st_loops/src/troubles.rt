// What is wrong with a loop message before it begins.
ghost use Rattle.std.specs.Prelude.{◌≡◌};
ghost use Rattle.object_heap.specs.Store.{Store};
ghost use Rattle.object_heap.specs.declared.value.Value.{Value};
ghost use Rattle.st_code.specs.Program.{Program};
ghost use Rattle.st_collections.specs.Actions.{first, second};
ghost use Rattle.st_collections.specs.Loops.{loop_action};
ghost use Rattle.st_loops.specs.Kinds.{message_of};
ghost use Rattle.st_loops.specs.Starts.{loop_trouble, step_trouble, stop_trouble, trouble_of};

use crate::kind::LoopKind;
use object_heap::{Trouble, Value};

fn stop_trouble(stop: Value) -> Option<Trouble>
    ensures { result ≡ stop_trouble stop }
{
    match stop {
        Value::Integer(_) => None,
        _ => Some(Trouble::NumberExpected),
    }
}

fn step_trouble(step: Value) -> Option<Trouble>
    ensures { result ≡ step_trouble step }
{
    match step {
        Value::Integer(0) => Some(Trouble::StepIsZero),
        Value::Integer(_) => None,
        _ => Some(Trouble::NumberExpected),
    }
}

fn first_of(arguments: &[Value]) -> Value
    ensures { result ≡ first arguments.now }
{
    match arguments {
        [value, ..] => *value,
        [] => Value::Nil,
    }
}

fn second_of(arguments: &[Value]) -> Value
    ensures { result ≡ second arguments.now }
{
    match arguments {
        [_, value, ..] => *value,
        _ => Value::Nil,
    }
}

// What is wrong with the arguments of a loop message.
fn loop_trouble(kind: LoopKind, arguments: &[Value]) -> Option<Trouble>
    ensures { result ≡ loop_trouble (message_of kind) arguments.now }
{
    match kind {
        LoopKind::ToDo => stop_trouble(first_of(arguments)),
        LoopKind::ToByDo => match stop_trouble(first_of(arguments)) {
            Some(trouble) => Some(trouble),
            None => step_trouble(second_of(arguments)),
        },
        _ => None,
    }
}

/// The trouble with a loop message other than `not found`, which comes before the loop begins: the
/// stop or the step of `to:do:` or `to:by:do:` is no Integer, or the step is 0.
pub fn first_trouble(kind: LoopKind, arguments: &[Value]) -> Option<Trouble>
    ensures { (p : Program) (s : Store) (receiver : Value) → result ≡ trouble_of (loop_action p s (message_of kind) receiver arguments.now) }
{
    loop_trouble(kind, arguments)
}
