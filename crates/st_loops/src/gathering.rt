// What a loop does with the value of the visit before: the loops that make a collection.
ghost use Rattle.std.specs.Prelude.{◌≡◌, ◌+ℤ◌, pos, true, false, IsTrue, if◌then◌else◌};
ghost use Rattle.st_collections.specs.Answers.{program_of};
ghost use Rattle.st_collections.specs.Items.{IsMeasured};
ghost use Rattle.st_collections.specs.Kinds.{is_true};
ghost use Rattle.st_collections.specs.Loops.{visit_at};
ghost use Rattle.st_loops.specs.Gathering.{added, gathers};
ghost use Rattle.st_loops.specs.Kinds.{message_of};
ghost use Rattle.st_loops.specs.Requests.{HasGathered};
ghost use Rattle.st_loops.specs.States.{at_index, state_of};
ghost use Rattle.st_loops.specs.Steps.{IsPartway, Out, is_out, memory_after, seen, told_of, unless_out};

use crate::growth::append;
use crate::state::LoopState;
use crate::step::{LoopStep, step_stop};
use crate::truth::is_true;
use crate::visits::visit_further;
use object_heap::{Heap, Value};
use st_names::Names;

/// Adds a value to the collection that is made, and visits the next element.
pub fn gather<H: Heap>(heap: &mut H, names: &Names, state: LoopState, value: Value) -> LoopStep
    requires measured { IsMeasured (H.meaning heap.old).store state.receiver }
    requires gathers { gathers (message_of state.kind) ≡ true }
    requires made { HasGathered (H.meaning heap.old).store state.made }
    ensures memory { H.meaning heap.new ≡ unless_out (seen result) (H.meaning heap.new) (memory_after (added (program_of names.now) (H.meaning heap.old).store (state_of state) value) (H.meaning heap.old)) }
    ensures partway { is_out (seen result) ≡ true → IsPartway (added (program_of names.now) (H.meaning heap.old).store (state_of state) value) (H.meaning heap.old) (H.meaning heap.new) }
    ensures step { seen result ≡ unless_out (seen result) Out (told_of (added (program_of names.now) (H.meaning heap.old).store (state_of state) value) (H.meaning heap.old)) }
    ensures reserved { IsTrue H.reserved → is_out (seen result) ≡ false }
    ensures literals { H.literal_room heap.new ≡ H.literal_room heap.old }
{
    let Value::Object(object) = state.made else {
        return visit_further(heap, names, state);
    };
    match append(heap, object, value) {
        Ok(()) => visit_further(heap, names, state),
        Err(stop) => step_stop(stop),
    }
}

/// `select:` adds the element that was visited where the block gave yes.
pub fn selected_given<H: Heap>(
    heap: &mut H,
    names: &Names,
    state: LoopState,
    given: Value,
) -> LoopStep
    requires measured { IsMeasured (H.meaning heap.old).store state.receiver }
    requires gathers { gathers (message_of state.kind) ≡ true }
    requires made { HasGathered (H.meaning heap.old).store state.made }
    ensures memory { H.meaning heap.new ≡ unless_out (seen result) (H.meaning heap.new) (memory_after (if is_true given then added (program_of names.now) (H.meaning heap.old).store (state_of state) state.visited else visit_at (program_of names.now) (H.meaning heap.old).store (message_of state.kind) (at_index (state.index +ℤ pos 1) (state_of state))) (H.meaning heap.old)) }
    ensures partway { is_out (seen result) ≡ true → IsPartway (if is_true given then added (program_of names.now) (H.meaning heap.old).store (state_of state) state.visited else visit_at (program_of names.now) (H.meaning heap.old).store (message_of state.kind) (at_index (state.index +ℤ pos 1) (state_of state))) (H.meaning heap.old) (H.meaning heap.new) }
    ensures step { seen result ≡ unless_out (seen result) Out (told_of (if is_true given then added (program_of names.now) (H.meaning heap.old).store (state_of state) state.visited else visit_at (program_of names.now) (H.meaning heap.old).store (message_of state.kind) (at_index (state.index +ℤ pos 1) (state_of state))) (H.meaning heap.old)) }
    ensures reserved { IsTrue H.reserved → is_out (seen result) ≡ false }
    ensures literals { H.literal_room heap.new ≡ H.literal_room heap.old }
{
    if is_true(given) {
        return gather(heap, names, state, state.visited);
    }
    visit_further(heap, names, state)
}

/// `reject:` adds it where the block gave anything else.
pub fn rejected_given<H: Heap>(
    heap: &mut H,
    names: &Names,
    state: LoopState,
    given: Value,
) -> LoopStep
    requires measured { IsMeasured (H.meaning heap.old).store state.receiver }
    requires gathers { gathers (message_of state.kind) ≡ true }
    requires made { HasGathered (H.meaning heap.old).store state.made }
    ensures memory { H.meaning heap.new ≡ unless_out (seen result) (H.meaning heap.new) (memory_after (if is_true given then visit_at (program_of names.now) (H.meaning heap.old).store (message_of state.kind) (at_index (state.index +ℤ pos 1) (state_of state)) else added (program_of names.now) (H.meaning heap.old).store (state_of state) state.visited) (H.meaning heap.old)) }
    ensures partway { is_out (seen result) ≡ true → IsPartway (if is_true given then visit_at (program_of names.now) (H.meaning heap.old).store (message_of state.kind) (at_index (state.index +ℤ pos 1) (state_of state)) else added (program_of names.now) (H.meaning heap.old).store (state_of state) state.visited) (H.meaning heap.old) (H.meaning heap.new) }
    ensures step { seen result ≡ unless_out (seen result) Out (told_of (if is_true given then visit_at (program_of names.now) (H.meaning heap.old).store (message_of state.kind) (at_index (state.index +ℤ pos 1) (state_of state)) else added (program_of names.now) (H.meaning heap.old).store (state_of state) state.visited) (H.meaning heap.old)) }
    ensures reserved { IsTrue H.reserved → is_out (seen result) ≡ false }
    ensures literals { H.literal_room heap.new ≡ H.literal_room heap.old }
{
    if is_true(given) {
        return visit_further(heap, names, state);
    }
    gather(heap, names, state, state.visited)
}
