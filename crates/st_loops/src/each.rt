// What a loop does with the value of the visit before: the loops that only visit.
ghost use Rattle.std.specs.Prelude.{◌≡◌, ◌+ℤ◌, ◌-◌, min, pos, true, false, IsTrue, if◌then◌else◌};
ghost use Rattle.st_collections.specs.Answers.{program_of};
ghost use Rattle.st_collections.specs.Items.{IsMeasured};
ghost use Rattle.st_collections.specs.Kinds.{natural_of, size_of};
ghost use Rattle.st_collections.specs.Loops.{visit_at};
ghost use Rattle.st_loops.specs.Kinds.{message_of};
ghost use Rattle.st_loops.specs.Requests.{IsReceiver};
ghost use Rattle.st_loops.specs.States.{at_index, state_of};
ghost use Rattle.st_loops.specs.Steps.{Out, is_out, memory_after, seen, told_of, unless_out};
ghost use Rattle.st_loops.specs.Visits.{has_elements};

use crate::places::size_now;
use crate::state::LoopState;
use crate::step::LoopStep;
use crate::visits::{visit_further, visit_place};
use object_heap::Heap;
use st_names::Names;

/// After a separator the element is visited, and after an element comes the next one.
pub fn separated_given<H: Heap>(heap: &mut H, names: &Names, state: LoopState) -> LoopStep
    requires measured { IsMeasured (H.meaning heap.old).store state.receiver }
    requires receiver { IsReceiver (H.meaning heap.old).store (message_of state.kind) state.receiver }
    requires elements { has_elements (message_of state.kind) ≡ true }
    ensures memory { H.meaning heap.new ≡ unless_out (seen result) (H.meaning heap.old) (memory_after (if state.aside then visit_at (program_of names.now) (H.meaning heap.old).store (message_of state.kind) (state_of state) else visit_at (program_of names.now) (H.meaning heap.old).store (message_of state.kind) (at_index (state.index +ℤ pos 1) (state_of state))) (H.meaning heap.old)) }
    ensures step { seen result ≡ unless_out (seen result) Out (told_of (if state.aside then visit_at (program_of names.now) (H.meaning heap.old).store (message_of state.kind) (state_of state) else visit_at (program_of names.now) (H.meaning heap.old).store (message_of state.kind) (at_index (state.index +ℤ pos 1) (state_of state))) (H.meaning heap.old)) }
    ensures reserved { IsTrue H.reserved → is_out (seen result) ≡ false }
    ensures literals { H.literal_room heap.new ≡ H.literal_room heap.old }
{
    if state.aside {
        return visit_place(heap, names, state);
    }
    visit_further(heap, names, state)
}

/// The index below, or the last one where the collection has become smaller.
pub fn downwards_given<H: Heap>(heap: &mut H, names: &Names, state: LoopState) -> LoopStep
    requires measured { IsMeasured (H.meaning heap.old).store state.receiver }
    requires receiver { IsReceiver (H.meaning heap.old).store (message_of state.kind) state.receiver }
    requires elements { has_elements (message_of state.kind) ≡ true }
    ensures memory { H.meaning heap.new ≡ unless_out (seen result) (H.meaning heap.old) (memory_after (visit_at (program_of names.now) (H.meaning heap.old).store (message_of state.kind) (at_index (pos (min (natural_of state.index - 1) (size_of (program_of names.now) (H.meaning heap.old).store state.receiver))) (state_of state))) (H.meaning heap.old)) }
    ensures step { seen result ≡ unless_out (seen result) Out (told_of (visit_at (program_of names.now) (H.meaning heap.old).store (message_of state.kind) (at_index (pos (min (natural_of state.index - 1) (size_of (program_of names.now) (H.meaning heap.old).store state.receiver))) (state_of state))) (H.meaning heap.old)) }
    ensures reserved { IsTrue H.reserved → is_out (seen result) ≡ false }
    ensures literals { H.literal_room heap.new ≡ H.literal_room heap.old }
{
    let below = if state.index < 1 { 0 } else { state.index - 1 };
    match size_now(heap, names, state.receiver) {
        Some(size) => visit_place(heap, names, state.at_index(below.min(size))),
        None => LoopStep::OutOfMemory,
    }
}
