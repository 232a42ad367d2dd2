// What a loop over elements does with the element at its index.
ghost use Rattle.std.specs.Prelude.{◌≡◌, ◌-◌, ◌<◌, ◌^◌, true};
ghost use Rattle.st_collections.specs.Actions.{Applies, Compares, first};
ghost use Rattle.st_collections.specs.Kinds.{natural_of};
ghost use Rattle.st_loops.specs.Kinds.{message_of};
ghost use Rattle.st_loops.specs.States.{state_of, values_of};
ghost use Rattle.st_loops.specs.Steps.{Next, seen};
ghost use Rattle.st_loops.specs.Visits.{compared, has_elements, key_or_index, separated, visited_at};

use crate::classes::DICTIONARY;
use crate::kind::LoopKind;
use crate::places::{is_of_class, key_now, slot_now, slots_now};
use crate::state::{Arguments, LoopState};
use crate::step::LoopStep;
use object_heap::{Heap, Value};

/// The index as a place: 0 where it is below.
pub fn place_of(index: i128) -> u128
    ensures place { result ≡ natural_of index }
    ensures bound { result < 2 ^ 127 }
{
    if index < 0 {
        return 0;
    }
    index as u128
}

// Applies the first argument.
fn apply(state: LoopState, arguments: Arguments) -> LoopStep
    ensures { seen result ≡ Next (Applies (state_of state) (first (values_of state.arguments)) (values_of arguments)) }
{
    LoopStep::Apply {
        state,
        block: state.arguments.first(),
        arguments,
    }
}

// Sends `=` to the first argument.
fn compare(state: LoopState, argument: Value) -> LoopStep
    ensures { seen result ≡ Next (Compares (state_of state) (first (values_of state.arguments)) argument) }
{
    LoopStep::Equal {
        state,
        receiver: state.arguments.first(),
        argument,
    }
}

// Applies the separator before each visit but the first.
fn separate(state: LoopState, element: Value) -> LoopStep
    ensures { seen result ≡ Next (separated (state_of state) element) }
{
    if state.index >= 2 && !state.aside {
        return LoopStep::Apply {
            state: state.beside(),
            block: state.arguments.second(),
            arguments: Arguments::None,
        };
    }
    let state = LoopState {
        aside: false,
        ..state
    };
    apply(state, Arguments::One(element))
}

// The key at the index of a Dictionary, else the index.
fn key_or_index<H: Heap>(heap: &H, state: LoopState) -> Value
    ensures { result ≡ key_or_index (H.meaning heap.now).store (state_of state) }
{
    if is_of_class(heap, DICTIONARY, state.receiver) {
        return key_now(heap, state.receiver, place_of(state.index));
    }
    Value::Integer(state.index)
}

// Sends `=` to the element with that of the argument, unless the argument no longer has it.
fn compare_elements<H: Heap>(heap: &H, state: LoopState) -> LoopStep
    ensures { seen result ≡ Next (compared (H.meaning heap.now).store (state_of state)) }
{
    let other = state.arguments.first();
    let index = place_of(state.index);
    if index > slots_now(heap, other) as u128 {
        return LoopStep::Answer(Value::False);
    }
    let place = index.saturating_sub(1);
    LoopStep::Equal {
        state,
        receiver: slot_now(heap, state.receiver, place),
        argument: slot_now(heap, other, place),
    }
}

/// What a loop does with the element at its index.
pub fn visit_element<H: Heap>(heap: &H, state: LoopState, element: Value) -> LoopStep
    requires { has_elements (message_of state.kind) ≡ true }
    ensures { seen result ≡ Next (visited_at (H.meaning heap.now).store (message_of state.kind) (state_of state) element) }
{
    match state.kind {
        LoopKind::Do
        | LoopKind::ReverseDo
        | LoopKind::AnySatisfy
        | LoopKind::AllSatisfy
        | LoopKind::Collect => apply(state, Arguments::One(element)),
        LoopKind::DoSeparatedBy => separate(state, element),
        LoopKind::KeysAndValuesDo => {
            apply(state, Arguments::Two(key_or_index(heap, state), element))
        }
        LoopKind::KeysDo => apply(state, Arguments::One(key_or_index(heap, state))),
        LoopKind::InjectInto => LoopStep::Apply {
            state,
            block: state.arguments.second(),
            arguments: Arguments::Two(state.made, element),
        },
        LoopKind::Detect | LoopKind::DetectIfNone | LoopKind::Select | LoopKind::Reject => {
            apply(state.visiting(element), Arguments::One(element))
        }
        LoopKind::Includes
        | LoopKind::OccurrencesOf
        | LoopKind::IndexOf
        | LoopKind::AddToSet
        | LoopKind::Remove
        | LoopKind::RemoveIfAbsent => compare(state, element),
        LoopKind::At
        | LoopKind::AtIfAbsent
        | LoopKind::AtPut
        | LoopKind::AtIfAbsentPut
        | LoopKind::IncludesKey
        | LoopKind::RemoveKey
        | LoopKind::RemoveKeyIfAbsent => {
            compare(state, key_now(heap, state.receiver, place_of(state.index)))
        }
        LoopKind::EqualElements => compare_elements(heap, state),
        LoopKind::WhileTrue
        | LoopKind::WhileFalse
        | LoopKind::TimesRepeat
        | LoopKind::ToDo
        | LoopKind::ToByDo
        | LoopKind::NotEqual => unreachable!(),
    }
}
