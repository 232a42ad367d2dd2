// How a loop begins.
ghost use Rattle.std.specs.Prelude.{◌≡◌, ◌≤◌, [], true, false, length, IsTrue, if◌then◌else◌};
ghost use Rattle.object_heap.specs.Charges.{charged, if_out, ran_out};
ghost use Rattle.st_code.specs.BuiltIns.{ordered_collection_class};
ghost use Rattle.st_code.specs.Program.{Program};
ghost use Rattle.st_collections.specs.Actions.{with_new};
ghost use Rattle.st_collections.specs.Answers.{allot_answer, program_of};
ghost use Rattle.st_collections.specs.Items.{IsMeasured};
ghost use Rattle.st_collections.specs.Loops.{first_of_message, first_visit, visit_at};
ghost use Rattle.st_loops.specs.Gathering.{gathers, with_made};
ghost use Rattle.st_loops.specs.Kinds.{message_of};
ghost use Rattle.st_loops.specs.Requests.{IsReceiver};
ghost use Rattle.st_loops.specs.Starts.{same_kind, started};
ghost use Rattle.st_loops.specs.States.{state_of};
ghost use Rattle.st_loops.specs.Steps.{Next, IsPartway, Out, is_out, memory_after, seen, told_of, unless_out};
ghost use Rattle.st_loops.specs.Visits.{has_elements};

use crate::classes::ORDERED_COLLECTION;
use crate::counts::{count_visit, integer_of, times_visit};
use crate::kind::LoopKind;
use crate::places::{is_of_class, slots_now};
use crate::starts::start;
use crate::state::{Arguments, LoopState};
use crate::step::{LoopStep, step_stop};
use crate::visits::visit_place;
use object_heap::{Heap, HeapStop, Value};
use st_names::Names;

// A new OrderedCollection.
#[tactic(auto, unfolding(st_collections::specs::Actions::with_new))]
fn new_collection<H: Heap>(heap: &mut H) -> Result<u32, HeapStop>
    ensures made { let m = H.meaning heap.old in H.meaning heap.new ≡ if_out result m (charged 1 (with_new ordered_collection_class [] [] m.store) m) }
    ensures answer { result ≡ if_out result result (allot_answer 1 (H.meaning heap.old)) }
    ensures reserved { IsTrue H.reserved → ran_out result ≡ false }
    ensures literals { H.literal_room heap.new ≡ H.literal_room heap.old }
{
    heap.make(ORDERED_COLLECTION, 0, 0)
}

// The first visit of a loop that makes a collection, which is charged first.
fn visit_with_made<H: Heap>(heap: &mut H, names: &Names, state: LoopState) -> LoopStep
    requires measured { IsMeasured (H.meaning heap.old).store state.receiver }
    requires gathers { gathers (message_of state.kind) ≡ true }
    ensures memory { H.meaning heap.new ≡ unless_out (seen result) (H.meaning heap.new) (memory_after (with_made (program_of names.now) (H.meaning heap.old).store (state_of state)) (H.meaning heap.old)) }
    ensures partway { is_out (seen result) ≡ true → IsPartway (with_made (program_of names.now) (H.meaning heap.old).store (state_of state)) (H.meaning heap.old) (H.meaning heap.new) }
    ensures step { seen result ≡ unless_out (seen result) Out (told_of (with_made (program_of names.now) (H.meaning heap.old).store (state_of state)) (H.meaning heap.old)) }
    ensures reserved { IsTrue H.reserved → is_out (seen result) ≡ false }
    ensures literals { H.literal_room heap.new ≡ H.literal_room heap.old }
{
    match new_collection(heap) {
        Ok(object) => visit_place(heap, names, state.made_to(Value::Object(object))),
        Err(stop) => step_stop(stop),
    }
}

// Whether the argument of `=` is of the receiver's class and size.
#[tactic(auto, unfolding(st_collections::specs::Kinds::slots_of))]
fn has_same_kind<H: Heap>(heap: &H, state: LoopState) -> bool
    ensures { result ≡ same_kind (H.meaning heap.now).store (state_of state) }
{
    let Value::Object(object) = state.receiver else {
        return false;
    };
    let other = state.arguments.first();
    is_of_class(heap, heap.class_of(object), other) && heap.length(object) == slots_now(heap, other)
}

// The first visit of a loop that goes over no elements.
#[tactic(auto, unfolding(st_collections::specs::Loops::visit_at))]
fn visit_plain<H: Heap>(heap: &H, names: &Names, state: LoopState) -> LoopStep
    requires { has_elements (message_of state.kind) ≡ false }
    ensures { seen result ≡ Next (visit_at (program_of names.now) (H.meaning heap.now).store (message_of state.kind) (state_of state)) }
{
    let arguments = state.arguments;
    match state.kind {
        LoopKind::WhileTrue | LoopKind::WhileFalse => LoopStep::Apply {
            state,
            block: state.receiver,
            arguments: Arguments::None,
        },
        LoopKind::TimesRepeat => times_visit(state),
        LoopKind::ToDo => count_visit(state, 1, integer_of(arguments.first()), arguments.second()),
        LoopKind::ToByDo => {
            let step = integer_of(arguments.second());
            count_visit(
                state,
                step,
                integer_of(arguments.first()),
                arguments.third(),
            )
        }
        LoopKind::NotEqual => LoopStep::Equal {
            state,
            receiver: state.receiver,
            argument: arguments.first(),
        },
        _ => unreachable!(),
    }
}

// The first visit of a loop that stands.
#[tactic(auto, unfolding(st_collections::specs::Loops::first_of_message))]
fn first_step<H: Heap>(heap: &mut H, names: &Names, state: LoopState) -> LoopStep
    requires measured { IsMeasured (H.meaning heap.old).store state.receiver }
    requires receiver { IsReceiver (H.meaning heap.old).store (message_of state.kind) state.receiver }
    ensures memory { H.meaning heap.new ≡ unless_out (seen result) (if gathers (message_of state.kind) then H.meaning heap.new else H.meaning heap.old) (memory_after (first_of_message (program_of names.now) (H.meaning heap.old).store (message_of state.kind) (state_of state)) (H.meaning heap.old)) }
    ensures partway { gathers (message_of state.kind) ≡ true → is_out (seen result) ≡ true → IsPartway (first_of_message (program_of names.now) (H.meaning heap.old).store (message_of state.kind) (state_of state)) (H.meaning heap.old) (H.meaning heap.new) }
    ensures step { seen result ≡ unless_out (seen result) Out (told_of (first_of_message (program_of names.now) (H.meaning heap.old).store (message_of state.kind) (state_of state)) (H.meaning heap.old)) }
    ensures reserved { IsTrue H.reserved → is_out (seen result) ≡ false }
    ensures literals { H.literal_room heap.new ≡ H.literal_room heap.old }
{
    match state.kind {
        LoopKind::Collect | LoopKind::Select | LoopKind::Reject => {
            visit_with_made(heap, names, state)
        }
        LoopKind::EqualElements => {
            if has_same_kind(heap, state) {
                return visit_place(heap, names, state);
            }
            LoopStep::Answer(Value::False)
        }
        LoopKind::WhileTrue
        | LoopKind::WhileFalse
        | LoopKind::TimesRepeat
        | LoopKind::ToDo
        | LoopKind::ToByDo
        | LoopKind::NotEqual => visit_plain(heap, names, state),
        _ => visit_place(heap, names, state),
    }
}

// The first step, for a program that has names alone.
fn begin_by_names<H: Heap>(
    heap: &mut H,
    names: &Names,
    kind: LoopKind,
    receiver: Value,
    arguments: &[Value],
) -> LoopStep
    requires few { length arguments.now ≤ 3 }
    requires measured { IsMeasured (H.meaning heap.old).store receiver }
    requires receiver { IsReceiver (H.meaning heap.old).store (message_of kind) receiver }
    ensures memory { H.meaning heap.new ≡ unless_out (seen result) (if gathers (message_of kind) then H.meaning heap.new else H.meaning heap.old) (memory_after (first_of_message (program_of names.now) (H.meaning heap.old).store (message_of kind) (started (program_of names.now) (H.meaning heap.old).store (message_of kind) receiver arguments.now)) (H.meaning heap.old)) }
    ensures partway { gathers (message_of kind) ≡ true → is_out (seen result) ≡ true → IsPartway (first_of_message (program_of names.now) (H.meaning heap.old).store (message_of kind) (started (program_of names.now) (H.meaning heap.old).store (message_of kind) receiver arguments.now)) (H.meaning heap.old) (H.meaning heap.new) }
    ensures step { seen result ≡ unless_out (seen result) Out (told_of (first_of_message (program_of names.now) (H.meaning heap.old).store (message_of kind) (started (program_of names.now) (H.meaning heap.old).store (message_of kind) receiver arguments.now)) (H.meaning heap.old)) }
    ensures reserved { IsTrue H.reserved → is_out (seen result) ≡ false }
    ensures literals { H.literal_room heap.new ≡ H.literal_room heap.old }
{
    let arguments = Arguments::from_values(arguments);
    match start(heap, names, kind, receiver, arguments) {
        Some(state) => first_step(heap, names, state),
        None => LoopStep::OutOfMemory,
    }
}

/// Begins a loop, where its message has no trouble: gives its first visit, or its answer. `names`
/// has the texts of the symbols. What one charge takes is tested before anything of it is written.
pub fn begin<H: Heap>(
    heap: &mut H,
    names: &Names,
    kind: LoopKind,
    receiver: Value,
    arguments: &[Value],
) -> LoopStep
    requires few { length arguments.now ≤ 3 }
    requires measured { IsMeasured (H.meaning heap.old).store receiver }
    requires receiver { IsReceiver (H.meaning heap.old).store (message_of kind) receiver }
    ensures memory { (p : Program) → p.names ≡ names.now → H.meaning heap.new ≡ unless_out (seen result) (if gathers (message_of kind) then H.meaning heap.new else H.meaning heap.old) (memory_after (first_visit p (H.meaning heap.old).store (started p (H.meaning heap.old).store (message_of kind) receiver arguments.now)) (H.meaning heap.old)) }
    ensures partway { (p : Program) → p.names ≡ names.now → gathers (message_of kind) ≡ true → is_out (seen result) ≡ true → IsPartway (first_visit p (H.meaning heap.old).store (started p (H.meaning heap.old).store (message_of kind) receiver arguments.now)) (H.meaning heap.old) (H.meaning heap.new) }
    ensures step { (p : Program) → p.names ≡ names.now → seen result ≡ unless_out (seen result) Out (told_of (first_visit p (H.meaning heap.old).store (started p (H.meaning heap.old).store (message_of kind) receiver arguments.now)) (H.meaning heap.old)) }
    ensures reserved { IsTrue H.reserved → is_out (seen result) ≡ false }
    ensures literals { H.literal_room heap.new ≡ H.literal_room heap.old }
{
    begin_by_names(heap, names, kind, receiver, arguments)
}
