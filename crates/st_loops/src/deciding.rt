// What a loop does with the value of the visit before: the loops that end at some value.
ghost use Rattle.std.specs.Prelude.{◌≡◌, ◌+ℤ◌, pos, true, false, IsTrue, if◌then◌else◌};
ghost use Rattle.object_heap.specs.declared.value.Value.{Value};
ghost use Rattle.st_collections.specs.Actions.{Finishes};
ghost use Rattle.st_collections.specs.Answers.{program_of};
ghost use Rattle.st_collections.specs.Items.{IsMeasured};
ghost use Rattle.st_collections.specs.Kinds.{is_true};
ghost use Rattle.st_collections.specs.Loops.{visit_at};
ghost use Rattle.st_loops.specs.Kinds.{message_of};
ghost use Rattle.st_loops.specs.Requests.{IsReceiver};
ghost use Rattle.st_loops.specs.States.{at_index, state_of};
ghost use Rattle.st_loops.specs.Steps.{Out, is_out, memory_after, seen, told_of, unless_out};
ghost use Rattle.st_loops.specs.Visits.{has_elements};

use crate::state::LoopState;
use crate::step::LoopStep;
use crate::truth::is_true;
use crate::visits::visit_further;
use object_heap::{Heap, Value};
use st_names::Names;

/// `detect:` answers the element that was visited. Where none matched, what the block or the
/// signal gives is the answer.
pub fn detected_given<H: Heap>(
    heap: &mut H,
    names: &Names,
    state: LoopState,
    given: Value,
) -> LoopStep
    requires measured { IsMeasured (H.meaning heap.old).store state.receiver }
    requires receiver { IsReceiver (H.meaning heap.old).store (message_of state.kind) state.receiver }
    requires elements { has_elements (message_of state.kind) ≡ true }
    ensures memory { H.meaning heap.new ≡ unless_out (seen result) (H.meaning heap.old) (memory_after (if state.aside then Finishes given else (if is_true given then Finishes state.visited else visit_at (program_of names.now) (H.meaning heap.old).store (message_of state.kind) (at_index (state.index +ℤ pos 1) (state_of state)))) (H.meaning heap.old)) }
    ensures step { seen result ≡ unless_out (seen result) Out (told_of (if state.aside then Finishes given else (if is_true given then Finishes state.visited else visit_at (program_of names.now) (H.meaning heap.old).store (message_of state.kind) (at_index (state.index +ℤ pos 1) (state_of state)))) (H.meaning heap.old)) }
    ensures reserved { IsTrue H.reserved → is_out (seen result) ≡ false }
    ensures literals { H.literal_room heap.new ≡ H.literal_room heap.old }
{
    if state.aside {
        return LoopStep::Answer(given);
    }
    if is_true(given) {
        return LoopStep::Answer(state.visited);
    }
    visit_further(heap, names, state)
}

/// `anySatisfy:` ends at the first yes.
pub fn any_given<H: Heap>(heap: &mut H, names: &Names, state: LoopState, given: Value) -> LoopStep
    requires measured { IsMeasured (H.meaning heap.old).store state.receiver }
    requires receiver { IsReceiver (H.meaning heap.old).store (message_of state.kind) state.receiver }
    requires elements { has_elements (message_of state.kind) ≡ true }
    ensures memory { H.meaning heap.new ≡ unless_out (seen result) (H.meaning heap.old) (memory_after (if is_true given then Finishes Value.True else visit_at (program_of names.now) (H.meaning heap.old).store (message_of state.kind) (at_index (state.index +ℤ pos 1) (state_of state))) (H.meaning heap.old)) }
    ensures step { seen result ≡ unless_out (seen result) Out (told_of (if is_true given then Finishes Value.True else visit_at (program_of names.now) (H.meaning heap.old).store (message_of state.kind) (at_index (state.index +ℤ pos 1) (state_of state))) (H.meaning heap.old)) }
    ensures reserved { IsTrue H.reserved → is_out (seen result) ≡ false }
    ensures literals { H.literal_room heap.new ≡ H.literal_room heap.old }
{
    if is_true(given) {
        return LoopStep::Answer(Value::True);
    }
    visit_further(heap, names, state)
}

/// `allSatisfy:` and `=` end at the first that isn't yes.
pub fn all_given<H: Heap>(heap: &mut H, names: &Names, state: LoopState, given: Value) -> LoopStep
    requires measured { IsMeasured (H.meaning heap.old).store state.receiver }
    requires receiver { IsReceiver (H.meaning heap.old).store (message_of state.kind) state.receiver }
    requires elements { has_elements (message_of state.kind) ≡ true }
    ensures memory { H.meaning heap.new ≡ unless_out (seen result) (H.meaning heap.old) (memory_after (if is_true given then visit_at (program_of names.now) (H.meaning heap.old).store (message_of state.kind) (at_index (state.index +ℤ pos 1) (state_of state)) else Finishes Value.False) (H.meaning heap.old)) }
    ensures step { seen result ≡ unless_out (seen result) Out (told_of (if is_true given then visit_at (program_of names.now) (H.meaning heap.old).store (message_of state.kind) (at_index (state.index +ℤ pos 1) (state_of state)) else Finishes Value.False) (H.meaning heap.old)) }
    ensures reserved { IsTrue H.reserved → is_out (seen result) ≡ false }
    ensures literals { H.literal_room heap.new ≡ H.literal_room heap.old }
{
    if is_true(given) {
        return visit_further(heap, names, state);
    }
    LoopStep::Answer(Value::False)
}
