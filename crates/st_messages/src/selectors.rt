// Messages of exception classes and ExceptionSets, the selectors of `on:do:`. A receiver of another kind answers nil to `new` and `signal`.
ghost use Rattle.std.specs.Prelude.{◌≡◌, false, IsTrue};
ghost use Rattle.object_heap.specs.Store.{object_at};
ghost use Rattle.st_code.specs.Lookup.{fits, is_exception, is_plain};
ghost use Rattle.st_code.specs.Messages.{ExceptionMessage};
ghost use Rattle.st_rules.specs.ExceptionRows.{exception_action};
ghost use Rattle.st_messages.specs.Replies.{is_lost, memory_after, seen, told_by, unless_lost};
ghost use Rattle.st_messages.specs.Rows.{selector_row};
ghost use Rattle.st_messages.specs.Selectors.{fits_any, fits_one};

use crate::arguments::first_of;
use crate::built_in::EXCEPTION;
use crate::facts::ProgramFacts;
use crate::level::level_now;
use crate::makers::new_blank;
use crate::reply::{Passed, Reply, answer, answer_trouble, answer_truth};
use crate::row::OfSelector;
use crate::slots::new_joined;
use object_heap::{Heap, Trouble, Value};
use program_image::Found;

/// Whether a value answers `handles:` by a built-in message.
#[tactic(auto, unfolding(st_code::specs::Lookup::is_plain))]
pub(crate) fn is_plain_now<H: Heap, P: ProgramFacts>(heap: &H, program: &P, value: Value) -> bool
    ensures { result ≡ is_plain (P.meaning program.now) (H.meaning heap.now).store value }
{
    let level = level_now(heap, value);
    let selector = program.name_number(b"handles:");
    match program.find(level.side, level.class, selector) {
        Some(Found::BuiltIn(_)) => true,
        _ => false,
    }
}

/// Whether a value is an exception.
#[tactic(auto, unfolding(st_code::specs::Lookup::is_exception))]
pub(crate) fn is_exception_now<H: Heap, P: ProgramFacts>(
    heap: &H,
    program: &P,
    value: Value,
) -> bool
    ensures { result ≡ is_exception (P.meaning program.now) (H.meaning heap.now).store value }
{
    match value {
        Value::Object(object) => program.is_under(heap.class_of(object), EXCEPTION),
        _ => false,
    }
}

// Whether a value is an exception's class or one above it.
fn fits_class<P: ProgramFacts>(program: &P, class: u32, value: Value) -> bool
    ensures { result ≡ fits_one (P.meaning program.now) class value }
{
    match value {
        Value::Class(ancestor) => program.is_under(class, ancestor),
        _ => false,
    }
}

// Whether one of the slots of an ExceptionSet is.
fn fits_some<H: Heap, P: ProgramFacts>(heap: &H, program: &P, set: u32, class: u32) -> bool
    ensures { result ≡ fits_any (P.meaning program.now) class (object_at set (H.meaning heap.now).store).slots }
{
    for place in 0..heap.length(set) {
        if fits_class(program, class, heap.get(set, place)) {
            return true;
        }
    }
    false
}

/// Whether a plain selector is an exception's class or one above it, or is a set that has one.
#[tactic(auto, unfolding(st_code::specs::Lookup::fits))]
pub(crate) fn fits_now<H: Heap, P: ProgramFacts>(
    heap: &H,
    program: &P,
    selector: Value,
    class: u32,
) -> bool
    ensures { result ≡ fits (P.meaning program.now) (H.meaning heap.now).store selector class }
{
    match selector {
        Value::Object(set) => fits_some(heap, program, set, class),
        _ => fits_class(program, class, selector),
    }
}

// `handles:`.
#[tactic(auto, unfolding(st_rules::specs::ExceptionRows::exception_action))]
fn handles<H: Heap, P: ProgramFacts>(
    heap: &H,
    program: &P,
    receiver: Value,
    arguments: &[Value],
) -> Reply
    ensures reply { seen (P.meaning program.now) (H.meaning heap.now).store arguments.now result ≡ told_by (exception_action (P.meaning program.now) (H.meaning heap.now).store ExceptionMessage.Handles receiver arguments.now) (H.meaning heap.now) }
    ensures kept { memory_after (exception_action (P.meaning program.now) (H.meaning heap.now).store ExceptionMessage.Handles receiver arguments.now) (H.meaning heap.now) ≡ H.meaning heap.now }
    ensures settled { is_lost result ≡ false }
{
    let argument = first_of(arguments);
    let Value::Object(object) = argument else {
        return answer_trouble(Trouble::ExceptionExpected);
    };
    if !is_exception_now(heap, program, argument) {
        return answer_trouble(Trouble::ExceptionExpected);
    }
    answer_truth(fits_now(heap, program, receiver, heap.class_of(object)))
}

// `new` of an exception's class.
#[tactic(auto, unfolding(st_rules::specs::ExceptionRows::exception_action, st_collections::specs::Actions::makes_blank))]
fn new_exception<H: Heap, P: ProgramFacts>(
    heap: &mut H,
    program: &P,
    receiver: Value,
    arguments: &[Value],
) -> Reply
    ensures memory { H.meaning heap.new ≡ unless_lost result (H.meaning heap.old) (memory_after (exception_action (P.meaning program.now) (H.meaning heap.old).store ExceptionMessage.New receiver arguments.now) (H.meaning heap.old)) }
    ensures reply { let said = seen (P.meaning program.now) (H.meaning heap.old).store arguments.now result in said ≡ unless_lost result said (told_by (exception_action (P.meaning program.now) (H.meaning heap.old).store ExceptionMessage.New receiver arguments.now) (H.meaning heap.old)) }
    ensures reserved { IsTrue H.reserved → is_lost result ≡ false }
    ensures literals { H.literal_room heap.new ≡ H.literal_room heap.old }
{
    match receiver {
        Value::Class(class) => {
            let slots = program.slot_count(class) as u128;
            Reply::Answer(new_blank(heap, class, slots, 0))
        }
        _ => answer(Value::Nil),
    }
}

// `,`.
#[tactic(auto, unfolding(st_rules::specs::ExceptionRows::exception_action, st_collections::specs::Actions::makes_slots))]
fn join<H: Heap, P: ProgramFacts>(
    heap: &mut H,
    program: &P,
    receiver: Value,
    arguments: &[Value],
) -> Reply
    ensures memory { H.meaning heap.new ≡ unless_lost result (H.meaning heap.old) (memory_after (exception_action (P.meaning program.now) (H.meaning heap.old).store ExceptionMessage.Join receiver arguments.now) (H.meaning heap.old)) }
    ensures reply { let said = seen (P.meaning program.now) (H.meaning heap.old).store arguments.now result in said ≡ unless_lost result said (told_by (exception_action (P.meaning program.now) (H.meaning heap.old).store ExceptionMessage.Join receiver arguments.now) (H.meaning heap.old)) }
    ensures reserved { IsTrue H.reserved → is_lost result ≡ false }
    ensures literals { H.literal_room heap.new ≡ H.literal_room heap.old }
{
    let argument = first_of(arguments);
    if is_plain_now(heap, program, receiver) && is_plain_now(heap, program, argument) {
        return Reply::Answer(new_joined(heap, receiver, argument));
    }
    answer_trouble(Trouble::ExceptionSelectorExpected)
}

/// What an exception class or an ExceptionSet answers (section 5.5).
#[tactic(auto, unfolding(st_rules::specs::ExceptionRows::exception_action))]
pub fn selector_message<H: Heap, P: ProgramFacts>(
    heap: &mut H,
    program: &P,
    message: OfSelector,
    receiver: Value,
    arguments: &[Value],
) -> Reply
    ensures memory { H.meaning heap.new ≡ unless_lost result (H.meaning heap.old) (memory_after (exception_action (P.meaning program.now) (H.meaning heap.old).store (selector_row message) receiver arguments.now) (H.meaning heap.old)) }
    ensures reply { let said = seen (P.meaning program.now) (H.meaning heap.old).store arguments.now result in said ≡ unless_lost result said (told_by (exception_action (P.meaning program.now) (H.meaning heap.old).store (selector_row message) receiver arguments.now) (H.meaning heap.old)) }
    ensures reserved { IsTrue H.reserved → is_lost result ≡ false }
    ensures literals { H.literal_room heap.new ≡ H.literal_room heap.old }
{
    match message {
        OfSelector::New => new_exception(heap, program, receiver, arguments),
        OfSelector::SignalNew => match receiver {
            Value::Class(class) => Reply::RaisesNew(class, Passed::All),
            _ => answer(Value::Nil),
        },
        OfSelector::Join => join(heap, program, receiver, arguments),
        OfSelector::Handles => handles(heap, program, receiver, arguments),
    }
}
