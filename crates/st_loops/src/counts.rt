// The loops of Blocks and Integers: `whileTrue:` and its kin, `timesRepeat:`, `to:do:` and `to:by:do:`.
ghost use Rattle.std.specs.Prelude.{◌≡◌, pos, ◌+ℤ◌};
ghost use Rattle.st_collections.specs.Kinds.{integer_of};
ghost use Rattle.st_loops.specs.Counts.{count_visit, is_past, times_visit, while_given};
ghost use Rattle.st_loops.specs.States.{at_index, state_of};
ghost use Rattle.st_loops.specs.Steps.{Next, seen};

use crate::state::{Arguments, LoopState};
use crate::step::LoopStep;
use object_heap::Value;

/// An Integer's number, and 0 of any other value.
pub fn integer_of(value: Value) -> i128
    ensures { result ≡ integer_of value }
{
    match value {
        Value::Integer(number) => number,
        _ => 0,
    }
}

/// What a `while` loop does with a value, which lets it go on or not.
pub fn while_given(state: LoopState, goes_on: bool) -> LoopStep
    ensures { seen result ≡ Next (while_given (state_of state) goes_on) }
{
    if state.aside {
        return LoopStep::Apply {
            state: LoopState {
                aside: false,
                ..state
            },
            block: state.receiver,
            arguments: Arguments::None,
        };
    }
    if !goes_on {
        return LoopStep::Answer(Value::Nil);
    }
    if state.arguments == Arguments::None {
        return LoopStep::Apply {
            state,
            block: state.receiver,
            arguments: Arguments::None,
        };
    }
    LoopStep::Apply {
        state: state.beside(),
        block: state.arguments.first(),
        arguments: Arguments::None,
    }
}

/// Applies the argument where the index is no more than the receiver.
pub fn times_visit(state: LoopState) -> LoopStep
    ensures { seen result ≡ Next (times_visit (state_of state)) }
{
    if state.index <= integer_of(state.receiver) {
        return LoopStep::Apply {
            state,
            block: state.arguments.first(),
            arguments: Arguments::None,
        };
    }
    LoopStep::Answer(state.receiver)
}

/// The same at the next index.
pub fn times_given(state: LoopState) -> LoopStep
    ensures { seen result ≡ Next (times_visit (at_index (state.index +ℤ pos 1) (state_of state))) }
{
    match state.index.checked_add(1) {
        Some(index) => times_visit(state.at_index(index)),
        None => LoopStep::Answer(state.receiver),
    }
}

fn is_past(step: i128, value: i128, stop: i128) -> bool
    ensures { result ≡ is_past step value stop }
{
    if step < 0 {
        return value < stop;
    }
    stop < value
}

/// Applies the block to the number, unless that is past the stop.
pub fn count_visit(state: LoopState, step: i128, stop: i128, block: Value) -> LoopStep
    ensures { seen result ≡ Next (count_visit step stop block (state_of state)) }
{
    if is_past(step, state.index, stop) {
        return LoopStep::Answer(state.receiver);
    }
    LoopStep::Apply {
        state,
        block,
        arguments: Arguments::One(Value::Integer(state.index)),
    }
}

/// The same at the next number. One that is no Integer of this machine is past the stop.
pub fn count_given(state: LoopState, step: i128, stop: i128, block: Value) -> LoopStep
    ensures { seen result ≡ Next (count_visit step stop block (at_index (state.index +ℤ step) (state_of state))) }
{
    match state.index.checked_add(step) {
        Some(number) => count_visit(state.at_index(number), step, stop, block),
        None => LoopStep::Answer(state.receiver),
    }
}
