// How the loop that stands innermost moves with a value that it gets, where that is done in place.
ghost use Rattle.std.specs.Prelude.{◌≡◌, ◌+ℤ◌, pos, IfSome};
ghost use Rattle.object_heap.specs.declared.value.Value.{Value};
ghost use Rattle.st_code.specs.Messages.{LoopMessage};
ghost use Rattle.st_code.specs.Program.{Program};
ghost use Rattle.st_collections.specs.Actions.{first, second, third};
ghost use Rattle.st_collections.specs.Kinds.{integer_of, same_value};
ghost use Rattle.st_collections.specs.Loops.{at_index, made_to, visit_at};
ghost use Rattle.st_loops.specs.Counts.{count_visit, times_visit, while_argument, while_given};
ghost use Rattle.st_loops.specs.States.{state_of, values_of};
ghost use Rattle.st_sprint.specs.Moves.{LoopMoves, Moves, visit_by};

use crate::counts::{integer_of, is_past};
use crate::places::{Place, place_in};
use object_heap::{Heap, Value};
use st_collections::is_measured;
use st_loops::{Arguments, LoopKind, LoopState};
use st_machine::Machine;

/// How a loop moves, where that is done in place.
#[derive(Clone, Copy, Debug, PartialEq, Eq)]
pub enum Move {
    /// It goes to an index, and applies a block to a value.
    Visit {
        index: i128,
        block: Value,
        element: Value,
    },
    /// It goes to an index, and applies a block.
    Repeat {
        index: i128,
        block: Value,
    },
    /// It waits for a visit, or for something else, and applies a block.
    Turn {
        aside: bool,
        block: Value,
    },
    /// It has the value that it got as that made so far, goes to an index, and applies a block to
    /// that value and an element.
    Inject {
        index: i128,
        block: Value,
        element: Value,
    },
    /// It ends with a value.
    Finish(Value),
}

// The first argument, nil where there is none.
fn first_of(arguments: &Arguments) -> Value
    ensures { result ≡ first (values_of arguments.now) }
{
    match arguments {
        Arguments::None => Value::Nil,
        Arguments::One(one) => *one,
        Arguments::Two(one, _) => *one,
        Arguments::Three(one, _, _) => *one,
    }
}

// The second argument, nil where there is none.
fn second_of(arguments: &Arguments) -> Value
    ensures { result ≡ second (values_of arguments.now) }
{
    match arguments {
        Arguments::Two(_, two) => *two,
        Arguments::Three(_, two, _) => *two,
        _ => Value::Nil,
    }
}

// The third argument, nil where there is none.
fn third_of(arguments: &Arguments) -> Value
    ensures { result ≡ third (values_of arguments.now) }
{
    match arguments {
        Arguments::Three(_, _, three) => *three,
        _ => Value::Nil,
    }
}

#[tactic(auto, unfolding(st_collections::specs::Kinds::same_value))]
fn is_true(value: Value) -> bool
    ensures { result ≡ same_value value Value.True }
{
    match value {
        Value::True => true,
        _ => false,
    }
}

#[tactic(auto, unfolding(st_collections::specs::Kinds::same_value))]
fn is_false(value: Value) -> bool
    ensures { result ≡ same_value value Value.False }
{
    match value {
        Value::False => true,
        _ => false,
    }
}

// A `while` loop whose test lets it go on applies its argument, or where it has none the test again.
fn while_further(state: &LoopState) -> Move
    ensures { (v : Value) → visit_by result (state_of state.now) v ≡ while_argument (state_of state.now) (values_of state.now.arguments) }
{
    match state.arguments {
        Arguments::None => Move::Turn {
            aside: state.aside,
            block: state.receiver,
        },
        _ => Move::Turn {
            aside: true,
            block: first_of(&state.arguments),
        },
    }
}

// A `while` loop.
fn while_move(state: &LoopState, goes_on: bool) -> Move
    ensures { (v : Value) → visit_by result (state_of state.now) v ≡ while_given (state_of state.now) goes_on }
{
    if state.aside {
        return Move::Turn {
            aside: false,
            block: state.receiver,
        };
    }
    if goes_on {
        return while_further(state);
    }
    Move::Finish(Value::Nil)
}

// `timesRepeat:`.
fn times_move(state: &LoopState) -> Option<Move>
    ensures { IfSome result (λ m. (v : Value) → visit_by m (state_of state.now) v ≡ times_visit (at_index (state.now.index +ℤ pos 1) (state_of state.now))) }
{
    match state.index.checked_add(1) {
        Some(index) => {
            if index <= integer_of(state.receiver) {
                let block = first_of(&state.arguments);
                return Some(Move::Repeat { index, block });
            }
            Some(Move::Finish(state.receiver))
        }
        None => None,
    }
}

// `to:do:` and `to:by:do:`, by their step.
fn count_move(state: &LoopState, step: i128, stop: i128, block: Value) -> Option<Move>
    ensures { IfSome result (λ m. (v : Value) → visit_by m (state_of state.now) v ≡ count_visit step stop block (at_index (state.now.index +ℤ step) (state_of state.now))) }
{
    match state.index.checked_add(step) {
        Some(index) => {
            if is_past(step, index, stop) {
                return Some(Move::Finish(state.receiver));
            }
            Some(Move::Visit {
                index,
                block,
                element: Value::Integer(index),
            })
        }
        None => None,
    }
}

// `to:do:`.
fn to_move(state: &LoopState) -> Option<Move>
    ensures { IfSome result (λ m. (v : Value) → visit_by m (state_of state.now) v ≡ count_visit (pos 1) (integer_of (first (values_of state.now.arguments))) (second (values_of state.now.arguments)) (at_index (state.now.index +ℤ pos 1) (state_of state.now))) }
{
    let stop = integer_of(first_of(&state.arguments));
    count_move(state, 1, stop, second_of(&state.arguments))
}

// `to:by:do:`.
fn to_by_move(state: &LoopState) -> Option<Move>
    ensures { IfSome result (λ m. (v : Value) → visit_by m (state_of state.now) v ≡ count_visit (integer_of (second (values_of state.now.arguments))) (integer_of (first (values_of state.now.arguments))) (third (values_of state.now.arguments)) (at_index (state.now.index +ℤ integer_of (second (values_of state.now.arguments))) (state_of state.now))) }
{
    let step = integer_of(second_of(&state.arguments));
    let stop = integer_of(first_of(&state.arguments));
    count_move(state, step, stop, third_of(&state.arguments))
}

// `do:` at an index.
fn element_move<H: Heap>(heap: &H, state: &LoopState, index: i128) -> Option<Move>
    ensures { IfSome result (λ m. (p : Program) (v : Value) → visit_by m (state_of state.now) v ≡ visit_at p (H.meaning heap.now).store LoopMessage.Do (at_index index (state_of state.now))) }
{
    match place_in(heap, state.receiver, index) {
        Place::Element(element) => Some(Move::Visit {
            index,
            block: first_of(&state.arguments),
            element,
        }),
        Place::Past => Some(Move::Finish(state.receiver)),
        Place::Unread => None,
    }
}

// `do:`.
fn do_move<H: Heap>(heap: &H, state: &LoopState) -> Option<Move>
    ensures { IfSome result (λ m. (p : Program) (v : Value) → visit_by m (state_of state.now) v ≡ visit_at p (H.meaning heap.now).store LoopMessage.Do (at_index (state.now.index +ℤ pos 1) (state_of state.now))) }
{
    match state.index.checked_add(1) {
        Some(index) => element_move(heap, state, index),
        None => None,
    }
}

// `inject:into:` at an index.
fn injected_move<H: Heap>(heap: &H, state: &LoopState, given: Value, index: i128) -> Option<Move>
    ensures { IfSome result (λ m. (p : Program) → visit_by m (state_of state.now) given ≡ visit_at p (H.meaning heap.now).store LoopMessage.InjectInto (made_to given (at_index index (state_of state.now)))) }
{
    match place_in(heap, state.receiver, index) {
        Place::Element(element) => Some(Move::Inject {
            index,
            block: second_of(&state.arguments),
            element,
        }),
        Place::Past => Some(Move::Finish(given)),
        Place::Unread => None,
    }
}

// `inject:into:`.
fn inject_move<H: Heap>(heap: &H, state: &LoopState, given: Value) -> Option<Move>
    ensures { IfSome result (λ m. (p : Program) → visit_by m (state_of state.now) given ≡ visit_at p (H.meaning heap.now).store LoopMessage.InjectInto (made_to given (at_index (state.now.index +ℤ pos 1) (state_of state.now)))) }
{
    match state.index.checked_add(1) {
        Some(index) => injected_move(heap, state, given, index),
        None => None,
    }
}

// How a loop moves with this value.
fn move_of<H: Heap>(machine: &Machine<H>, state: &LoopState, given: Value) -> Option<Move>
    ensures { IfSome result (λ m. Moves m (state_of state.now) given machine.now) }
{
    if !is_measured(&machine.heap, state.receiver) {
        return None;
    }
    match state.kind {
        LoopKind::WhileTrue => Some(while_move(state, is_true(given))),
        LoopKind::WhileFalse => Some(while_move(state, is_false(given))),
        LoopKind::TimesRepeat => times_move(state),
        LoopKind::ToDo => to_move(state),
        LoopKind::ToByDo => to_by_move(state),
        LoopKind::Do => do_move(&machine.heap, state),
        LoopKind::InjectInto => inject_move(&machine.heap, state, given),
        _ => None,
    }
}

/// How the loop that stands innermost moves with this value, where it does so in place.
pub fn loop_move<H: Heap>(machine: &Machine<H>, given: Value) -> Option<Move>
    ensures { IfSome result (λ m. LoopMoves m given machine.now) }
{
    match machine.contexts.running_loop() {
        Some(state) => move_of(machine, state, given),
        None => None,
    }
}
