// A loop's visit where it is, and at its next index.
ghost use Rattle.std.specs.Prelude.{◌≡◌, ◌+ℤ◌, ◌^◌, pos, true, false, IsTrue};
ghost use Rattle.st_collections.specs.Answers.{program_of};
ghost use Rattle.st_collections.specs.Items.{IsMeasured};
ghost use Rattle.st_collections.specs.Loops.{visit_at};
ghost use Rattle.st_loops.specs.Kinds.{message_of};
ghost use Rattle.st_loops.specs.Requests.{IsReceiver};
ghost use Rattle.st_loops.specs.States.{at_index, state_of};
ghost use Rattle.st_loops.specs.Steps.{Out, is_out, memory_after, seen, told_of, unless_out};
ghost use Rattle.st_loops.specs.Visits.{has_elements};

use crate::counts::{count_visit, integer_of, times_visit};
use crate::elements::visit_element;
use crate::ends::visit_end;
use crate::kind::LoopKind;
use crate::places::{Place, place_at, size_now};
use crate::state::{Arguments, LoopState};
use crate::step::LoopStep;
use object_heap::Heap;
use st_names::Names;

/// The visit of the element at the index, or the loop's end.
pub fn visit_place<H: Heap>(heap: &mut H, names: &Names, state: LoopState) -> LoopStep
    requires measured { IsMeasured (H.meaning heap.old).store state.receiver }
    requires receiver { IsReceiver (H.meaning heap.old).store (message_of state.kind) state.receiver }
    requires elements { has_elements (message_of state.kind) ≡ true }
    ensures memory { H.meaning heap.new ≡ unless_out (seen result) (H.meaning heap.old) (memory_after (visit_at (program_of names.now) (H.meaning heap.old).store (message_of state.kind) (state_of state)) (H.meaning heap.old)) }
    ensures step { seen result ≡ unless_out (seen result) Out (told_of (visit_at (program_of names.now) (H.meaning heap.old).store (message_of state.kind) (state_of state)) (H.meaning heap.old)) }
    ensures reserved { IsTrue H.reserved → is_out (seen result) ≡ false }
    ensures literals { H.literal_room heap.new ≡ H.literal_room heap.old }
{
    match place_at(heap, names, state.receiver, state.index) {
        Place::Element(element) => visit_element(heap, state, element),
        Place::Past => visit_end(heap, state),
        Place::OutOfMemory => LoopStep::OutOfMemory,
    }
}

// The end behind the last index that there can be: the size is an Integer, so none is greater.
fn visit_behind<H: Heap>(heap: &mut H, names: &Names, state: LoopState) -> LoopStep
    requires measured { IsMeasured (H.meaning heap.old).store state.receiver }
    requires receiver { IsReceiver (H.meaning heap.old).store (message_of state.kind) state.receiver }
    requires elements { has_elements (message_of state.kind) ≡ true }
    ensures memory { H.meaning heap.new ≡ unless_out (seen result) (H.meaning heap.old) (memory_after (visit_at (program_of names.now) (H.meaning heap.old).store (message_of state.kind) (at_index (pos (2 ^ 127)) (state_of state))) (H.meaning heap.old)) }
    ensures step { seen result ≡ unless_out (seen result) Out (told_of (visit_at (program_of names.now) (H.meaning heap.old).store (message_of state.kind) (at_index (pos (2 ^ 127)) (state_of state))) (H.meaning heap.old)) }
    ensures reserved { IsTrue H.reserved → is_out (seen result) ≡ false }
    ensures literals { H.literal_room heap.new ≡ H.literal_room heap.old }
{
    match size_now(heap, names, state.receiver) {
        Some(_) => visit_end(heap, state),
        None => LoopStep::OutOfMemory,
    }
}

/// The visit at the next index.
pub fn visit_further<H: Heap>(heap: &mut H, names: &Names, state: LoopState) -> LoopStep
    requires measured { IsMeasured (H.meaning heap.old).store state.receiver }
    requires receiver { IsReceiver (H.meaning heap.old).store (message_of state.kind) state.receiver }
    requires elements { has_elements (message_of state.kind) ≡ true }
    ensures memory { H.meaning heap.new ≡ unless_out (seen result) (H.meaning heap.old) (memory_after (visit_at (program_of names.now) (H.meaning heap.old).store (message_of state.kind) (at_index (state.index +ℤ pos 1) (state_of state))) (H.meaning heap.old)) }
    ensures step { seen result ≡ unless_out (seen result) Out (told_of (visit_at (program_of names.now) (H.meaning heap.old).store (message_of state.kind) (at_index (state.index +ℤ pos 1) (state_of state))) (H.meaning heap.old)) }
    ensures reserved { IsTrue H.reserved → is_out (seen result) ≡ false }
    ensures literals { H.literal_room heap.new ≡ H.literal_room heap.old }
{
    if state.index < i128::MAX {
        return visit_place(heap, names, state.at_index(state.index + 1));
    }
    visit_behind(heap, names, state)
}
