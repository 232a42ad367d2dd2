// Messages of classes. A receiver that is no class answers nil.
ghost use Rattle.std.specs.Prelude.{◌≡◌, false, IsTrue};
ghost use Rattle.object_heap.specs.declared.value.Value.{Value};
ghost use Rattle.st_code.specs.Messages.{ClassMessage};
ghost use Rattle.st_collections.specs.ObjectRows.{class_action};
ghost use Rattle.st_messages.specs.Replies.{is_lost, memory_after, seen, told_by, unless_lost};
ghost use Rattle.st_messages.specs.Rows.{class_row};

use crate::arguments::{first_of, size_asked};
use crate::facts::ProgramFacts;
use crate::makers::new_blank;
use crate::pieces::Piece;
use crate::reply::{Reply, answer, answer_trouble};
use crate::row::OfClass;
use crate::texts::new_text;
use object_heap::{Heap, Trouble, Value};
use st_tree::units::Indexed;

// `name`.
#[tactic(auto, unfolding(st_collections::specs::ObjectRows::class_action, st_collections::specs::Actions::makes_string, st_collections::specs::Actions::makes_bytes))]
fn name<H: Heap, P: ProgramFacts>(
    heap: &mut H,
    program: &P,
    class: u32,
    arguments: &[Value],
) -> Reply
    ensures memory { H.meaning heap.new ≡ unless_lost result (H.meaning heap.old) (memory_after (class_action (P.meaning program.now) (H.meaning heap.old).store ClassMessage.Name (Value.Class class) arguments.now) (H.meaning heap.old)) }
    ensures reply { let said = seen (P.meaning program.now) (H.meaning heap.old).store arguments.now result in said ≡ unless_lost result said (told_by (class_action (P.meaning program.now) (H.meaning heap.old).store ClassMessage.Name (Value.Class class) arguments.now) (H.meaning heap.old)) }
    ensures reserved { IsTrue H.reserved → is_lost result ≡ false }
    ensures literals { H.literal_room heap.new ≡ H.literal_room heap.old }
{
    Reply::Answer(new_text(heap, program, &[Piece::ClassName(class)]))
}

// `superclass`.
#[tactic(auto, unfolding(st_collections::specs::ObjectRows::class_action))]
fn superclass<H: Heap, P: ProgramFacts>(
    heap: &H,
    program: &P,
    class: u32,
    arguments: &[Value],
) -> Reply
    ensures reply { seen (P.meaning program.now) (H.meaning heap.now).store arguments.now result ≡ told_by (class_action (P.meaning program.now) (H.meaning heap.now).store ClassMessage.Superclass (Value.Class class) arguments.now) (H.meaning heap.now) }
    ensures kept { memory_after (class_action (P.meaning program.now) (H.meaning heap.now).store ClassMessage.Superclass (Value.Class class) arguments.now) (H.meaning heap.now) ≡ H.meaning heap.now }
    ensures settled { is_lost result ≡ false }
{
    match program.superclass(class) {
        Some(above) => answer(Value::Class(above)),
        None => answer(Value::Nil),
    }
}

// `new`.
#[tactic(auto, unfolding(st_collections::specs::ObjectRows::class_action, st_collections::specs::Actions::makes_blank))]
fn new_instance<H: Heap, P: ProgramFacts>(
    heap: &mut H,
    program: &P,
    class: u32,
    arguments: &[Value],
) -> Reply
    ensures memory { H.meaning heap.new ≡ unless_lost result (H.meaning heap.old) (memory_after (class_action (P.meaning program.now) (H.meaning heap.old).store ClassMessage.New (Value.Class class) arguments.now) (H.meaning heap.old)) }
    ensures reply { let said = seen (P.meaning program.now) (H.meaning heap.old).store arguments.now result in said ≡ unless_lost result said (told_by (class_action (P.meaning program.now) (H.meaning heap.old).store ClassMessage.New (Value.Class class) arguments.now) (H.meaning heap.old)) }
    ensures reserved { IsTrue H.reserved → is_lost result ≡ false }
    ensures literals { H.literal_room heap.new ≡ H.literal_room heap.old }
{
    if !program.is_in_file(class) {
        return answer_trouble(Trouble::CannotBeInstantiated);
    }
    let slots = program.slot_count(class) as u128;
    Reply::Answer(new_blank(heap, class, slots, 0))
}

// `new:`.
#[tactic(auto, unfolding(st_collections::specs::ObjectRows::class_action, st_collections::specs::Actions::makes_blank))]
fn new_of_size<H: Heap, P: ProgramFacts>(
    heap: &mut H,
    program: &P,
    class: u32,
    arguments: &[Value],
) -> Reply
    ensures memory { H.meaning heap.new ≡ unless_lost result (H.meaning heap.old) (memory_after (class_action (P.meaning program.now) (H.meaning heap.old).store ClassMessage.NewSize (Value.Class class) arguments.now) (H.meaning heap.old)) }
    ensures reply { let said = seen (P.meaning program.now) (H.meaning heap.old).store arguments.now result in said ≡ unless_lost result said (told_by (class_action (P.meaning program.now) (H.meaning heap.old).store ClassMessage.NewSize (Value.Class class) arguments.now) (H.meaning heap.old)) }
    ensures reserved { IsTrue H.reserved → is_lost result ≡ false }
    ensures literals { H.literal_room heap.new ≡ H.literal_room heap.old }
{
    if !program.is_in_file(class) {
        return answer_trouble(Trouble::CannotBeInstantiated);
    }
    let slots = program.slot_count(class) as u128;
    match program.indexed(class) {
        Indexed::None => answer_trouble(Trouble::NotIndexed),
        Indexed::Object => match size_asked(first_of(arguments)) {
            Ok(size) => Reply::Answer(new_blank(heap, class, slots + size, 0)),
            Err(trouble) => answer_trouble(trouble),
        },
        Indexed::Byte => match size_asked(first_of(arguments)) {
            Ok(size) => Reply::Answer(new_blank(heap, class, slots, size)),
            Err(trouble) => answer_trouble(trouble),
        },
    }
}

/// What a class answers (section 5.3.2).
#[tactic(auto, unfolding(st_collections::specs::ObjectRows::class_action))]
pub fn class_message<H: Heap, P: ProgramFacts>(
    heap: &mut H,
    program: &P,
    message: OfClass,
    receiver: Value,
    arguments: &[Value],
) -> Reply
    ensures memory { H.meaning heap.new ≡ unless_lost result (H.meaning heap.old) (memory_after (class_action (P.meaning program.now) (H.meaning heap.old).store (class_row message) receiver arguments.now) (H.meaning heap.old)) }
    ensures reply { let said = seen (P.meaning program.now) (H.meaning heap.old).store arguments.now result in said ≡ unless_lost result said (told_by (class_action (P.meaning program.now) (H.meaning heap.old).store (class_row message) receiver arguments.now) (H.meaning heap.old)) }
    ensures reserved { IsTrue H.reserved → is_lost result ≡ false }
    ensures literals { H.literal_room heap.new ≡ H.literal_room heap.old }
{
    let Value::Class(class) = receiver else {
        return answer(Value::Nil);
    };
    match message {
        OfClass::Name => name(heap, program, class, arguments),
        OfClass::Superclass => superclass(heap, program, class, arguments),
        OfClass::New => new_instance(heap, program, class, arguments),
        OfClass::NewSize => new_of_size(heap, program, class, arguments),
    }
}
