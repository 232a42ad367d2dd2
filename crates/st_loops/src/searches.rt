// What a loop does with the value of the visit before: the searches by `=`.
ghost use Rattle.std.specs.Prelude.{◌≡◌, ◌+◌, ◌-◌, ◌*◌, ◌<◌, ◌≤◌, ◌^◌, ◌<ℤ◌, true, false, get_or, IsTrue, if◌then◌else◌};
ghost use Rattle.object_heap.specs.declared.value.Value.{Value};
ghost use Rattle.object_heap.specs.Charges.{with_store};
ghost use Rattle.st_collections.specs.Actions.{Charges, Finishes, second};
ghost use Rattle.st_collections.specs.Answers.{program_of};
ghost use Rattle.st_collections.specs.Items.{IsMeasured};
ghost use Rattle.st_collections.specs.Kinds.{integer_of, natural_of, slots_of};
ghost use Rattle.st_loops.specs.Kinds.{message_of};
ghost use Rattle.st_loops.specs.Places.{is_lost, unless_lost};
ghost use Rattle.st_loops.specs.Requests.{HasRoom, IsReceiver};
ghost use Rattle.st_loops.specs.Searches.{counted, found_at, match_at, pair_removed, removed, searched, set_value, value_at, without};
ghost use Rattle.st_loops.specs.States.{state_of, values_of};
ghost use Rattle.st_loops.specs.Steps.{Out, is_out, memory_after, seen, told_of, unless_out};
ghost use Rattle.st_loops.specs.Visits.{has_elements};

use crate::counts::integer_of;
use crate::elements::place_of;
use crate::growth::take_out;
use crate::kind::LoopKind;
use crate::places::{Place, place_at, slot_now};
use crate::state::LoopState;
use crate::step::LoopStep;
use crate::truth::is_true;
use crate::visits::visit_further;
use object_heap::{Heap, Value};
use st_names::Names;

// The element that matched: `=` gave yes, and an element still stands at the index.
fn match_at<H: Heap>(heap: &mut H, names: &Names, state: LoopState, given: Value) -> Place
    requires { IsMeasured (H.meaning heap.old).store state.receiver }
    ensures memory { H.meaning heap.new ≡ H.meaning heap.old }
    ensures place { result ≡ unless_lost result result (match_at (program_of names.now) (H.meaning heap.old).store (state_of state) given) }
    ensures reserved { IsTrue H.reserved → is_lost result ≡ false }
    ensures literals { H.literal_room heap.new ≡ H.literal_room heap.old }
{
    if !is_true(given) {
        return Place::Past;
    }
    place_at(heap, names, state.receiver, state.index)
}

// That the cells used are never past the limit, which a charge of nothing asks for.
fn limit_law<H: Heap>(heap: &H)
    ensures { (H.meaning heap.now).used ≤ (H.meaning heap.now).limit }
{
    let _used = heap.used();
}

// Takes a slot out of an object, by its place from 0, where there is one.
fn take_out_at<H: Heap>(heap: &mut H, value: Value, place: u128)
    requires { HasRoom (H.meaning heap.old).store value }
    ensures taken { H.meaning heap.new ≡ with_store (without (H.meaning heap.old).store value place) (H.meaning heap.old) }
    ensures literals { H.literal_room heap.new ≡ H.literal_room heap.old }
{
    if let Value::Object(object) = value {
        if place < heap.length(object) as u128 {
            take_out(heap, object, place as u32);
        }
    }
}

// Takes out the element that matched.
fn remove_element<H: Heap>(heap: &mut H, state: LoopState, element: Value) -> LoopStep
    requires { HasRoom (H.meaning heap.old).store state.receiver }
    ensures memory { H.meaning heap.new ≡ unless_out (seen result) (H.meaning heap.old) (memory_after (removed (H.meaning heap.old).store (state_of state) element) (H.meaning heap.old)) }
    ensures step { seen result ≡ unless_out (seen result) Out (told_of (removed (H.meaning heap.old).store (state_of state) element) (H.meaning heap.old)) }
    ensures reserved { IsTrue H.reserved → is_out (seen result) ≡ false }
    ensures literals { H.literal_room heap.new ≡ H.literal_room heap.old }
{
    limit_law(heap);
    take_out_at(
        heap,
        state.receiver,
        place_of(state.index).saturating_sub(1),
    );
    LoopStep::Answer(element)
}

// The value behind the key that matched.
fn value_at<H: Heap>(heap: &H, state: LoopState) -> Value
    ensures { result ≡ value_at (H.meaning heap.now).store (state_of state) }
{
    slot_now(
        heap,
        state.receiver,
        (2 * place_of(state.index)).saturating_sub(1),
    )
}

// Takes out the key that matched and its value, and answers the value.
fn remove_pair<H: Heap>(heap: &mut H, state: LoopState) -> LoopStep
    requires { HasRoom (H.meaning heap.old).store state.receiver }
    ensures memory { H.meaning heap.new ≡ unless_out (seen result) (H.meaning heap.old) (memory_after (pair_removed (H.meaning heap.old).store (state_of state)) (H.meaning heap.old)) }
    ensures step { seen result ≡ unless_out (seen result) Out (told_of (pair_removed (H.meaning heap.old).store (state_of state)) (H.meaning heap.old)) }
    ensures reserved { IsTrue H.reserved → is_out (seen result) ≡ false }
    ensures literals { H.literal_room heap.new ≡ H.literal_room heap.old }
{
    limit_law(heap);
    let value = value_at(heap, state);
    let twice = 2 * place_of(state.index);
    take_out_at(heap, state.receiver, twice.saturating_sub(1));
    take_out_at(heap, state.receiver, twice.saturating_sub(2));
    LoopStep::Answer(value)
}

// Writes another value behind the key that matched.
fn write_value<H: Heap>(heap: &mut H, state: LoopState, value: Value)
    ensures written { H.meaning heap.new ≡ with_store (set_value (H.meaning heap.old).store (state_of state) value) (H.meaning heap.old) }
    ensures literals { H.literal_room heap.new ≡ H.literal_room heap.old }
{
    let place = (2 * place_of(state.index)).saturating_sub(1);
    if let Value::Object(object) = state.receiver {
        if place < heap.length(object) as u128 {
            heap.put(object, place as u32, value);
        }
    }
}

// Puts the second argument behind the key that matched, and answers it.
fn put_value<H: Heap>(heap: &mut H, state: LoopState) -> LoopStep
    ensures memory { H.meaning heap.new ≡ unless_out (seen result) (H.meaning heap.old) (memory_after (Charges 0 (set_value (H.meaning heap.old).store (state_of state) (second (values_of state.arguments))) (Finishes (second (values_of state.arguments)))) (H.meaning heap.old)) }
    ensures step { seen result ≡ unless_out (seen result) Out (told_of (Charges 0 (set_value (H.meaning heap.old).store (state_of state) (second (values_of state.arguments))) (Finishes (second (values_of state.arguments)))) (H.meaning heap.old)) }
    ensures reserved { IsTrue H.reserved → is_out (seen result) ≡ false }
    ensures literals { H.literal_room heap.new ≡ H.literal_room heap.old }
{
    limit_law(heap);
    let value = state.arguments.second();
    write_value(heap, state, value);
    LoopStep::Answer(value)
}

// What a search does with the element that matched.
fn found<H: Heap>(heap: &mut H, state: LoopState, element: Value) -> LoopStep
    requires receiver { IsReceiver (H.meaning heap.old).store (message_of state.kind) state.receiver }
    ensures memory { H.meaning heap.new ≡ unless_out (seen result) (H.meaning heap.old) (memory_after (found_at (H.meaning heap.old).store (message_of state.kind) (state_of state) element) (H.meaning heap.old)) }
    ensures step { seen result ≡ unless_out (seen result) Out (told_of (found_at (H.meaning heap.old).store (message_of state.kind) (state_of state) element) (H.meaning heap.old)) }
    ensures reserved { IsTrue H.reserved → is_out (seen result) ≡ false }
    ensures literals { H.literal_room heap.new ≡ H.literal_room heap.old }
{
    match state.kind {
        LoopKind::IndexOf => LoopStep::Answer(Value::Integer(state.index)),
        LoopKind::AddToSet => LoopStep::Answer(state.arguments.first()),
        LoopKind::Remove | LoopKind::RemoveIfAbsent => remove_element(heap, state, element),
        LoopKind::At | LoopKind::AtIfAbsent | LoopKind::AtIfAbsentPut => {
            LoopStep::Answer(value_at(heap, state))
        }
        LoopKind::AtPut => put_value(heap, state),
        LoopKind::RemoveKey | LoopKind::RemoveKeyIfAbsent => remove_pair(heap, state),
        _ => LoopStep::Answer(Value::True),
    }
}

/// A search ends at a match, and else goes on.
pub fn searched_given<H: Heap>(
    heap: &mut H,
    names: &Names,
    state: LoopState,
    given: Value,
) -> LoopStep
    requires measured { IsMeasured (H.meaning heap.old).store state.receiver }
    requires receiver { IsReceiver (H.meaning heap.old).store (message_of state.kind) state.receiver }
    requires elements { has_elements (message_of state.kind) ≡ true }
    ensures memory { H.meaning heap.new ≡ unless_out (seen result) (H.meaning heap.old) (memory_after (searched (program_of names.now) (H.meaning heap.old).store (state_of state) given) (H.meaning heap.old)) }
    ensures step { seen result ≡ unless_out (seen result) Out (told_of (searched (program_of names.now) (H.meaning heap.old).store (state_of state) given) (H.meaning heap.old)) }
    ensures reserved { IsTrue H.reserved → is_out (seen result) ≡ false }
    ensures literals { H.literal_room heap.new ≡ H.literal_room heap.old }
{
    match match_at(heap, names, state, given) {
        Place::Element(element) => found(heap, state, element),
        Place::Past => visit_further(heap, names, state),
        Place::OutOfMemory => LoopStep::OutOfMemory,
    }
}

/// `occurrencesOf:` counts a match and goes on.
pub fn counted_given<H: Heap>(
    heap: &mut H,
    names: &Names,
    state: LoopState,
    given: Value,
) -> LoopStep
    requires measured { IsMeasured (H.meaning heap.old).store state.receiver }
    requires receiver { IsReceiver (H.meaning heap.old).store (message_of state.kind) state.receiver }
    requires elements { has_elements (message_of state.kind) ≡ true }
    requires counted { integer_of state.made <ℤ state.index }
    ensures memory { H.meaning heap.new ≡ unless_out (seen result) (H.meaning heap.old) (memory_after (counted (program_of names.now) (H.meaning heap.old).store (state_of state) given) (H.meaning heap.old)) }
    ensures step { seen result ≡ unless_out (seen result) Out (told_of (counted (program_of names.now) (H.meaning heap.old).store (state_of state) given) (H.meaning heap.old)) }
    ensures reserved { IsTrue H.reserved → is_out (seen result) ≡ false }
    ensures literals { H.literal_room heap.new ≡ H.literal_room heap.old }
{
    match match_at(heap, names, state, given) {
        Place::Element(_) => {
            let count = integer_of(state.made) + 1;
            visit_further(heap, names, state.made_to(Value::Integer(count)))
        }
        Place::Past => visit_further(heap, names, state),
        Place::OutOfMemory => LoopStep::OutOfMemory,
    }
}
