// What a loop over elements does where no element stands at its index.
ghost use Rattle.std.specs.Prelude.{◌≡◌, [], false, nat_eq, IsTrue};
ghost use Rattle.st_code.specs.BuiltIns.{string_class};
ghost use Rattle.st_collections.specs.Actions.{Applies, Finishes, Lacks, second};
ghost use Rattle.st_collections.specs.Kinds.{species};
ghost use Rattle.st_loops.specs.Kinds.{message_of};
ghost use Rattle.st_loops.specs.Requests.{IsReceiver};
ghost use Rattle.st_loops.specs.States.{past_all, state_of, values_of};
ghost use Rattle.st_loops.specs.Steps.{Next, Out, is_out, memory_after, seen, told_of, unless_out};
ghost use Rattle.st_loops.specs.Visits.{collected, ended_at, keeps_made, selected};

use crate::additions::{add_element, add_pair};
use crate::classes::{ARRAY, DICTIONARY, ORDERED_COLLECTION, SET, STRING};
use crate::kind::LoopKind;
use crate::makers::{turn_into, turn_into_string};
use crate::places::is_of_class;
use crate::state::{Arguments, LoopState};
use crate::step::LoopStep;
use object_heap::{Heap, Value};

// Whether the collection that was made is what a loop over this receiver answers.
fn keeps_made<H: Heap>(heap: &H, receiver: Value) -> bool
    ensures { result ≡ keeps_made (H.meaning heap.now).store receiver }
{
    is_of_class(heap, ORDERED_COLLECTION, receiver)
        || is_of_class(heap, SET, receiver)
        || is_of_class(heap, DICTIONARY, receiver)
}

// Whether a part of this receiver is a String.
#[tactic(auto, unfolding(st_collections::specs::Kinds::species))]
fn has_text<H: Heap>(heap: &H, receiver: Value) -> bool
    ensures { result ≡ nat_eq (species (H.meaning heap.now).store receiver) string_class }
{
    match receiver {
        Value::Object(object) => heap.class_of(object) == STRING,
        _ => true,
    }
}

// What `collect:` answers.
fn answer_collected<H: Heap>(heap: &mut H, state: LoopState) -> LoopStep
    ensures memory { H.meaning heap.new ≡ unless_out (seen result) (H.meaning heap.old) (memory_after (collected (H.meaning heap.old).store (state_of state)) (H.meaning heap.old)) }
    ensures step { seen result ≡ unless_out (seen result) Out (told_of (collected (H.meaning heap.old).store (state_of state)) (H.meaning heap.old)) }
    ensures reserved { IsTrue H.reserved → is_out (seen result) ≡ false }
    ensures literals { H.literal_room heap.new ≡ H.literal_room heap.old }
{
    if keeps_made(heap, state.receiver) {
        return LoopStep::Answer(state.made);
    }
    turn_into(heap, ARRAY, state.made)
}

// What `select:` and `reject:` answer.
fn answer_selected<H: Heap>(heap: &mut H, state: LoopState) -> LoopStep
    ensures memory { H.meaning heap.new ≡ unless_out (seen result) (H.meaning heap.old) (memory_after (selected (H.meaning heap.old).store (state_of state)) (H.meaning heap.old)) }
    ensures step { seen result ≡ unless_out (seen result) Out (told_of (selected (H.meaning heap.old).store (state_of state)) (H.meaning heap.old)) }
    ensures reserved { IsTrue H.reserved → is_out (seen result) ≡ false }
    ensures literals { H.literal_room heap.new ≡ H.literal_room heap.old }
{
    if has_text(heap, state.receiver) {
        return turn_into_string(heap, state.made);
    }
    if is_of_class(heap, SET, state.receiver) {
        return turn_into(heap, SET, state.made);
    }
    if keeps_made(heap, state.receiver) {
        return LoopStep::Answer(state.made);
    }
    turn_into(heap, ARRAY, state.made)
}

// The trouble `not found`.
fn lack(state: LoopState) -> LoopStep
    ensures { seen result ≡ Next (Lacks (past_all (state_of state))) }
{
    LoopStep::Lacking {
        state: state.past_all(),
    }
}

// Applies the second argument, since nothing was found.
fn apply_second(state: LoopState) -> LoopStep
    ensures { seen result ≡ Next (Applies (past_all (state_of state)) (second (values_of state.arguments)) []) }
{
    LoopStep::Apply {
        state: state.past_all(),
        block: state.arguments.second(),
        arguments: Arguments::None,
    }
}

/// What a loop does where no element stands at its index.
pub fn visit_end<H: Heap>(heap: &mut H, state: LoopState) -> LoopStep
    requires { IsReceiver (H.meaning heap.old).store (message_of state.kind) state.receiver }
    ensures memory { H.meaning heap.new ≡ unless_out (seen result) (H.meaning heap.old) (memory_after (ended_at (H.meaning heap.old).store (message_of state.kind) (state_of state)) (H.meaning heap.old)) }
    ensures step { seen result ≡ unless_out (seen result) Out (told_of (ended_at (H.meaning heap.old).store (message_of state.kind) (state_of state)) (H.meaning heap.old)) }
    ensures reserved { IsTrue H.reserved → is_out (seen result) ≡ false }
    ensures literals { H.literal_room heap.new ≡ H.literal_room heap.old }
{
    let arguments = state.arguments;
    match state.kind {
        LoopKind::Collect => answer_collected(heap, state),
        LoopKind::Select | LoopKind::Reject => answer_selected(heap, state),
        LoopKind::AddToSet => add_element(heap, state.receiver, arguments.first()),
        LoopKind::AtPut => add_pair(heap, state.receiver, arguments.first(), arguments.second()),
        LoopKind::Detect | LoopKind::Remove | LoopKind::At | LoopKind::RemoveKey => lack(state),
        LoopKind::DetectIfNone
        | LoopKind::RemoveIfAbsent
        | LoopKind::AtIfAbsent
        | LoopKind::AtIfAbsentPut
        | LoopKind::RemoveKeyIfAbsent => apply_second(state),
        LoopKind::InjectInto | LoopKind::OccurrencesOf => LoopStep::Answer(state.made),
        LoopKind::AnySatisfy | LoopKind::Includes | LoopKind::IncludesKey => {
            LoopStep::Answer(Value::False)
        }
        LoopKind::AllSatisfy | LoopKind::EqualElements => LoopStep::Answer(Value::True),
        LoopKind::IndexOf => LoopStep::Answer(Value::Integer(0)),
        LoopKind::Do
        | LoopKind::DoSeparatedBy
        | LoopKind::ReverseDo
        | LoopKind::KeysAndValuesDo
        | LoopKind::KeysDo
        | LoopKind::WhileTrue
        | LoopKind::WhileFalse
        | LoopKind::TimesRepeat
        | LoopKind::ToDo
        | LoopKind::ToByDo
        | LoopKind::NotEqual => LoopStep::Answer(state.receiver),
    }
}
