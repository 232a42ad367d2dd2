// A loop's next step, by its message and the value that the step before brought.
ghost use Rattle.std.specs.Prelude.{◌≡◌, true, false, not, IsTrue, if◌then◌else◌};
ghost use Rattle.st_code.specs.Program.{Program};
ghost use Rattle.st_collections.specs.Actions.{Finishes, boolean, first};
ghost use Rattle.st_collections.specs.Answers.{program_of};
ghost use Rattle.st_collections.specs.Items.{IsMeasured};
ghost use Rattle.st_collections.specs.Kinds.{is_true};
ghost use Rattle.st_collections.specs.Loops.{given_at, next_visit};
ghost use Rattle.st_loops.specs.Gathering.{gathers};
ghost use Rattle.st_loops.specs.Kinds.{message_of};
ghost use Rattle.st_loops.specs.Requests.{HasPairs, IsKept, IsReceiver};
ghost use Rattle.st_loops.specs.Searches.{searched};
ghost use Rattle.st_loops.specs.States.{state_of, values_of};
ghost use Rattle.st_loops.specs.Steps.{Next, IsPartway, Out, is_out, memory_after, seen, told_of, unless_out};
ghost use Rattle.st_loops.specs.Visits.{has_elements, with_pair};

use crate::additions::add_pair;
use crate::counts::{count_given, integer_of, times_given, while_given};
use crate::deciding::{all_given, any_given, detected_given};
use crate::each::{downwards_given, separated_given};
use crate::gathering::{gather, rejected_given, selected_given};
use crate::kind::LoopKind;
use crate::searches::{counted_given, searched_given};
use crate::state::LoopState;
use crate::step::LoopStep;
use crate::truth::{is_false, is_true};
use crate::visits::visit_further;
use object_heap::{Heap, Value};
use st_names::Names;

// Where nothing was found, what the block or the signal gives is the answer.
fn answered_given<H: Heap>(heap: &mut H, names: &Names, state: LoopState, given: Value) -> LoopStep
    requires measured { IsMeasured (H.meaning heap.old).store state.receiver }
    requires receiver { IsReceiver (H.meaning heap.old).store (message_of state.kind) state.receiver }
    requires elements { has_elements (message_of state.kind) ≡ true }
    ensures memory { H.meaning heap.new ≡ unless_out (seen result) (H.meaning heap.old) (memory_after (if state.aside then Finishes given else searched (program_of names.now) (H.meaning heap.old).store (state_of state) given) (H.meaning heap.old)) }
    ensures step { seen result ≡ unless_out (seen result) Out (told_of (if state.aside then Finishes given else searched (program_of names.now) (H.meaning heap.old).store (state_of state) given) (H.meaning heap.old)) }
    ensures reserved { IsTrue H.reserved → is_out (seen result) ≡ false }
    ensures literals { H.literal_room heap.new ≡ H.literal_room heap.old }
{
    if state.aside {
        return LoopStep::Answer(given);
    }
    searched_given(heap, names, state, given)
}

// Where the key wasn't found, what the block gives stands behind it from now on.
fn absent_given<H: Heap>(heap: &mut H, names: &Names, state: LoopState, given: Value) -> LoopStep
    requires measured { IsMeasured (H.meaning heap.old).store state.receiver }
    requires receiver { IsReceiver (H.meaning heap.old).store (message_of state.kind) state.receiver }
    requires elements { has_elements (message_of state.kind) ≡ true }
    requires pairs { HasPairs (H.meaning heap.old).store state.receiver }
    ensures memory { H.meaning heap.new ≡ unless_out (seen result) (H.meaning heap.old) (memory_after (if state.aside then with_pair (H.meaning heap.old).store state.receiver (first (values_of state.arguments)) given else searched (program_of names.now) (H.meaning heap.old).store (state_of state) given) (H.meaning heap.old)) }
    ensures step { seen result ≡ unless_out (seen result) Out (told_of (if state.aside then with_pair (H.meaning heap.old).store state.receiver (first (values_of state.arguments)) given else searched (program_of names.now) (H.meaning heap.old).store (state_of state) given) (H.meaning heap.old)) }
    ensures reserved { IsTrue H.reserved → is_out (seen result) ≡ false }
    ensures literals { H.literal_room heap.new ≡ H.literal_room heap.old }
{
    if state.aside {
        return add_pair(heap, state.receiver, state.arguments.first(), given);
    }
    searched_given(heap, names, state, given)
}

// `~=` answers whether `=` gave no yes.
fn not_given(given: Value) -> LoopStep
    ensures { seen result ≡ Next (Finishes (boolean (not (is_true given)))) }
{
    if is_true(given) {
        return LoopStep::Answer(Value::False);
    }
    LoopStep::Answer(Value::True)
}

// The next step, for a program that has names alone.
#[tactic(auto, unfolding(st_collections::specs::Loops::given_at, st_collections::specs::Loops::is_within))]
fn step_by_names<H: Heap>(heap: &mut H, names: &Names, state: LoopState, given: Value) -> LoopStep
    requires measured { IsMeasured (H.meaning heap.old).store state.receiver }
    requires receiver { IsReceiver (H.meaning heap.old).store (message_of state.kind) state.receiver }
    requires kept { IsKept (H.meaning heap.old).store (message_of state.kind) (state_of state) }
    ensures memory { H.meaning heap.new ≡ unless_out (seen result) (if gathers (message_of state.kind) then H.meaning heap.new else H.meaning heap.old) (memory_after (given_at (program_of names.now) (H.meaning heap.old).store (message_of state.kind) (state_of state) given) (H.meaning heap.old)) }
    ensures partway { gathers (message_of state.kind) ≡ true → is_out (seen result) ≡ true → IsPartway (given_at (program_of names.now) (H.meaning heap.old).store (message_of state.kind) (state_of state) given) (H.meaning heap.old) (H.meaning heap.new) }
    ensures step { seen result ≡ unless_out (seen result) Out (told_of (given_at (program_of names.now) (H.meaning heap.old).store (message_of state.kind) (state_of state) given) (H.meaning heap.old)) }
    ensures reserved { IsTrue H.reserved → is_out (seen result) ≡ false }
    ensures literals { H.literal_room heap.new ≡ H.literal_room heap.old }
{
    let arguments = state.arguments;
    match state.kind {
        LoopKind::WhileTrue => while_given(state, is_true(given)),
        LoopKind::WhileFalse => while_given(state, is_false(given)),
        LoopKind::TimesRepeat => times_given(state),
        LoopKind::ToDo => count_given(state, 1, integer_of(arguments.first()), arguments.second()),
        LoopKind::ToByDo => {
            let step = integer_of(arguments.second());
            count_given(
                state,
                step,
                integer_of(arguments.first()),
                arguments.third(),
            )
        }
        LoopKind::Do | LoopKind::KeysAndValuesDo | LoopKind::KeysDo => {
            visit_further(heap, names, state)
        }
        LoopKind::DoSeparatedBy => separated_given(heap, names, state),
        LoopKind::ReverseDo => downwards_given(heap, names, state),
        LoopKind::InjectInto => visit_further(heap, names, state.made_to(given)),
        LoopKind::Detect | LoopKind::DetectIfNone => detected_given(heap, names, state, given),
        LoopKind::AnySatisfy => any_given(heap, names, state, given),
        LoopKind::AllSatisfy | LoopKind::EqualElements => all_given(heap, names, state, given),
        LoopKind::Collect => gather(heap, names, state, given),
        LoopKind::Select => selected_given(heap, names, state, given),
        LoopKind::Reject => rejected_given(heap, names, state, given),
        LoopKind::OccurrencesOf => counted_given(heap, names, state, given),
        LoopKind::Includes
        | LoopKind::IncludesKey
        | LoopKind::IndexOf
        | LoopKind::AddToSet
        | LoopKind::AtPut => searched_given(heap, names, state, given),
        LoopKind::Remove
        | LoopKind::RemoveIfAbsent
        | LoopKind::At
        | LoopKind::AtIfAbsent
        | LoopKind::RemoveKey
        | LoopKind::RemoveKeyIfAbsent => answered_given(heap, names, state, given),
        LoopKind::AtIfAbsentPut => absent_given(heap, names, state, given),
        LoopKind::NotEqual => not_given(given),
    }
}

/// Goes on with the value that the application or the send of `=` gave, or that the signal of
/// `not found` answered. `names` has the texts of the symbols. What one charge takes is tested
/// before anything of it is written.
pub fn advance<H: Heap>(heap: &mut H, names: &Names, state: LoopState, given: Value) -> LoopStep
    requires measured { IsMeasured (H.meaning heap.old).store state.receiver }
    requires receiver { IsReceiver (H.meaning heap.old).store (message_of state.kind) state.receiver }
    requires kept { IsKept (H.meaning heap.old).store (message_of state.kind) (state_of state) }
    ensures memory { (p : Program) → p.names ≡ names.now → H.meaning heap.new ≡ unless_out (seen result) (if gathers (message_of state.kind) then H.meaning heap.new else H.meaning heap.old) (memory_after (next_visit p (H.meaning heap.old).store (state_of state) given) (H.meaning heap.old)) }
    ensures partway { (p : Program) → p.names ≡ names.now → gathers (message_of state.kind) ≡ true → is_out (seen result) ≡ true → IsPartway (next_visit p (H.meaning heap.old).store (state_of state) given) (H.meaning heap.old) (H.meaning heap.new) }
    ensures step { (p : Program) → p.names ≡ names.now → seen result ≡ unless_out (seen result) Out (told_of (next_visit p (H.meaning heap.old).store (state_of state) given) (H.meaning heap.old)) }
    ensures reserved { IsTrue H.reserved → is_out (seen result) ≡ false }
    ensures literals { H.literal_room heap.new ≡ H.literal_room heap.old }
{
    step_by_names(heap, names, state, given)
}
