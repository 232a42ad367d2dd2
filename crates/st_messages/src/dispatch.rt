// What a row of the table of built-in messages does, and what a send does.
ghost use Rattle.std.specs.Prelude.{◌≡◌, ◌&&◌, false, IfNone, IfSome, IsTrue, is_some};
ghost use Rattle.std.specs.Option.{option_map};
ghost use Rattle.program_image.specs.Images.{as_row};
ghost use Rattle.st_code.specs.BuiltIns.{numbered_row};
ghost use Rattle.st_code.specs.Lookup.{level_of, lookup, super_lookup};
ghost use Rattle.st_rules.specs.Sends.{row_action, send_action, super_action};
ghost use Rattle.st_messages.specs.Replies.{is_lost, memory_after, seen, told_by, unless_lost};
ghost use Rattle.st_messages.specs.Rows.{making_of, table_row};
ghost use Rattle.st_messages.specs.Sent.{IsSound, found_does, is_changing, is_ready, is_sound};

use crate::arguments::first_of;
use crate::blocks::block_message;
use crate::booleans::boolean_message;
use crate::classes::class_message;
use crate::collections::collection_reply;
use crate::exceptions::exception_message;
use crate::facts::ProgramFacts;
use crate::level::level_now;
use crate::loops::loop_reply;
use crate::numbers::number_reply;
use crate::objects::object_message;
use crate::reply::{Reply, answer};
use crate::row::{MessageRow, OfMaker};
use crate::selectors::selector_message;
use crate::table::row_of;
use crate::transcripts::transcript_message;
use crate::values::slot_now;
use object_heap::{Heap, Value};
use program_image::Found;
use st_collections::{CollectionMessage, OfMaking, is_measured, is_ordered};

// A maker as a message of collections.
fn maker_of(message: OfMaker) -> OfMaking
    ensures { result ≡ making_of message }
{
    match message {
        OfMaker::Array => OfMaking::Array,
        OfMaker::ByteArray => OfMaking::ByteArray,
        OfMaker::With => OfMaking::With,
        OfMaker::WithAll => OfMaking::WithAll,
        OfMaker::Empty => OfMaking::Empty,
        OfMaker::KeyValue => OfMaking::KeyValue,
        OfMaker::Arrow => OfMaking::Arrow,
        OfMaker::To => OfMaking::To,
        OfMaker::ToBy => OfMaking::ToBy,
    }
}

// Does what a row of the table does at once.
#[tactic(auto, unfolding(st_rules::specs::Sends::row_action))]
fn row_reply<H: Heap, P: ProgramFacts>(
    heap: &mut H,
    program: &P,
    row: MessageRow,
    receiver: Value,
    arguments: &[Value],
) -> Reply
    requires { IsSound (H.meaning heap.old).store row receiver arguments.now }
    ensures memory { H.meaning heap.new ≡ unless_lost result (H.meaning heap.old) (memory_after (row_action (P.meaning program.now) (H.meaning heap.old).store (table_row row) receiver arguments.now) (H.meaning heap.old)) }
    ensures reply { let said = seen (P.meaning program.now) (H.meaning heap.old).store arguments.now result in said ≡ unless_lost result said (told_by (row_action (P.meaning program.now) (H.meaning heap.old).store (table_row row) receiver arguments.now) (H.meaning heap.old)) }
    ensures reserved { IsTrue H.reserved → is_lost result ≡ false }
    ensures literals { H.literal_room heap.new ≡ H.literal_room heap.old }
{
    match row {
        MessageRow::Object(m) => object_message(heap, program, m, receiver, arguments),
        MessageRow::Class(m) => class_message(heap, program, m, receiver, arguments),
        MessageRow::Boolean(m) => boolean_message(m, receiver, arguments),
        MessageRow::Number(m) => number_reply(heap, program, m, receiver, arguments),
        MessageRow::Transcript(m) => transcript_message(heap, m, receiver, arguments),
        MessageRow::Character(m) => {
            let message = CollectionMessage::Character(m);
            collection_reply(heap, program, message, receiver, arguments)
        }
        MessageRow::String(m) => {
            let message = CollectionMessage::String(m);
            collection_reply(heap, program, message, receiver, arguments)
        }
        MessageRow::Sequence(m) => {
            let message = CollectionMessage::Sequence(m);
            collection_reply(heap, program, message, receiver, arguments)
        }
        MessageRow::Maker(m) => {
            let message = CollectionMessage::Making(maker_of(m));
            collection_reply(heap, program, message, receiver, arguments)
        }
        MessageRow::Ordered(m) => {
            let message = CollectionMessage::Ordered(m);
            collection_reply(heap, program, message, receiver, arguments)
        }
        MessageRow::Pair(m) => {
            let message = CollectionMessage::Pair(m);
            collection_reply(heap, program, message, receiver, arguments)
        }
        MessageRow::Block(m) => block_message(heap, program, m, receiver, arguments),
        MessageRow::Selector(m) => selector_message(heap, program, m, receiver, arguments),
        MessageRow::Exception(m) => exception_message(heap, program, m, receiver, arguments),
        MessageRow::Loop(kind) => loop_reply(kind, receiver, arguments),
        MessageRow::Slot(slot) => answer(slot_now(heap, receiver, slot)),
    }
}

fn changes_ordered(row: MessageRow) -> bool
    ensures { result ≡ is_changing (table_row row) }
{
    match row {
        MessageRow::Ordered(_) => true,
        _ => false,
    }
}

// Whether a row may act on this receiver with these arguments.
#[tactic(auto, unfolding(crate::specs::Sent::is_sound))]
fn may_act<H: Heap>(heap: &H, row: MessageRow, receiver: Value, arguments: &[Value]) -> bool
    ensures { result ≡ is_sound (H.meaning heap.now).store (table_row row) receiver arguments.now }
{
    is_measured(heap, receiver)
        && is_measured(heap, first_of(arguments))
        && (!changes_ordered(row) || is_ordered(heap, receiver))
}

/// Does what a row of the table does at once. All cells that a message takes are one charge,
/// which is tested before anything is written. An argument that isn't there is nil. None, with
/// nothing changed, where the receiver or the first argument is an Interval of 2^127 elements or
/// more, or where the row changes an OrderedCollection that is a literal or has no room for its
/// elements. No program comes to such a one.
pub fn row_message<H: Heap, P: ProgramFacts>(
    heap: &mut H,
    program: &P,
    row: MessageRow,
    receiver: Value,
    arguments: &[Value],
) -> Option<Reply>
    ensures memory { IfSome result (λ reply. H.meaning heap.new ≡ unless_lost reply (H.meaning heap.old) (memory_after (row_action (P.meaning program.now) (H.meaning heap.old).store (table_row row) receiver arguments.now) (H.meaning heap.old))) }
    ensures reply { IfSome result (λ reply. let said = seen (P.meaning program.now) (H.meaning heap.old).store arguments.now reply in said ≡ unless_lost reply said (told_by (row_action (P.meaning program.now) (H.meaning heap.old).store (table_row row) receiver arguments.now) (H.meaning heap.old))) }
    ensures reserved { IfSome result (λ reply. IsTrue H.reserved → is_lost reply ≡ false) }
    ensures rest { IfNone result (H.meaning heap.new ≡ H.meaning heap.old) }
    ensures literals { H.literal_room heap.new ≡ H.literal_room heap.old }
    ensures here { is_some result ≡ is_sound (H.meaning heap.old).store (table_row row) receiver arguments.now }
{
    if may_act(heap, row, receiver, arguments) {
        return Some(row_reply(heap, program, row, receiver, arguments));
    }
    None
}

// What the built-in message with this number does at once.
fn built_in_message<H: Heap, P: ProgramFacts>(
    heap: &mut H,
    program: &P,
    message: u16,
    receiver: Value,
    arguments: &[Value],
) -> Option<Reply>
    ensures memory { IfSome result (λ reply. H.meaning heap.new ≡ unless_lost reply (H.meaning heap.old) (memory_after (row_action (P.meaning program.now) (H.meaning heap.old).store (numbered_row message) receiver arguments.now) (H.meaning heap.old))) }
    ensures reply { IfSome result (λ reply. let said = seen (P.meaning program.now) (H.meaning heap.old).store arguments.now reply in said ≡ unless_lost reply said (told_by (row_action (P.meaning program.now) (H.meaning heap.old).store (numbered_row message) receiver arguments.now) (H.meaning heap.old))) }
    ensures reserved { IfSome result (λ reply. IsTrue H.reserved → is_lost reply ≡ false) }
    ensures rest { IfNone result (H.meaning heap.new ≡ H.meaning heap.old) }
    ensures literals { H.literal_room heap.new ≡ H.literal_room heap.old }
    ensures here { is_some result ≡ is_sound (H.meaning heap.old).store (numbered_row message) receiver arguments.now }
{
    row_message(heap, program, row_of(message), receiver, arguments)
}

// What is found does at once.
fn found_message<H: Heap, P: ProgramFacts>(
    heap: &mut H,
    program: &P,
    found: Option<Found>,
    selector: u32,
    receiver: Value,
    arguments: &[Value],
) -> Option<Reply>
    ensures memory { IfSome result (λ reply. H.meaning heap.new ≡ unless_lost reply (H.meaning heap.old) (memory_after (found_does (P.meaning program.now) (H.meaning heap.old).store (option_map as_row found) selector receiver arguments.now) (H.meaning heap.old))) }
    ensures reply { IfSome result (λ reply. let said = seen (P.meaning program.now) (H.meaning heap.old).store arguments.now reply in said ≡ unless_lost reply said (told_by (found_does (P.meaning program.now) (H.meaning heap.old).store (option_map as_row found) selector receiver arguments.now) (H.meaning heap.old))) }
    ensures reserved { IfSome result (λ reply. IsTrue H.reserved → is_lost reply ≡ false) }
    ensures rest { IfNone result (H.meaning heap.new ≡ H.meaning heap.old) }
    ensures literals { H.literal_room heap.new ≡ H.literal_room heap.old }
    ensures here { is_some result ≡ is_ready (H.meaning heap.old).store (option_map as_row found) receiver arguments.now }
{
    match found {
        None => Some(Reply::Misses(selector, receiver)),
        Some(Found::User(code)) => Some(Reply::Enters(code, receiver)),
        Some(Found::BuiltIn(message)) => {
            built_in_message(heap, program, message, receiver, arguments)
        }
    }
}

/// Does what a send does at once (section 3.3). None, with nothing changed, where `row_message` has
/// none.
pub fn send_message<H: Heap, P: ProgramFacts>(
    heap: &mut H,
    program: &P,
    selector: u32,
    receiver: Value,
    arguments: &[Value],
) -> Option<Reply>
    ensures memory { IfSome result (λ reply. H.meaning heap.new ≡ unless_lost reply (H.meaning heap.old) (memory_after (send_action (P.meaning program.now) (H.meaning heap.old).store selector receiver arguments.now) (H.meaning heap.old))) }
    ensures reply { IfSome result (λ reply. let said = seen (P.meaning program.now) (H.meaning heap.old).store arguments.now reply in said ≡ unless_lost reply said (told_by (send_action (P.meaning program.now) (H.meaning heap.old).store selector receiver arguments.now) (H.meaning heap.old))) }
    ensures reserved { IfSome result (λ reply. IsTrue H.reserved → is_lost reply ≡ false) }
    ensures rest { IfNone result (H.meaning heap.new ≡ H.meaning heap.old) }
    ensures literals { H.literal_room heap.new ≡ H.literal_room heap.old }
    ensures here { is_some result ≡ is_ready (H.meaning heap.old).store (lookup (P.meaning program.now) (level_of (H.meaning heap.old).store receiver) selector) receiver arguments.now }
{
    let level = level_now(heap, receiver);
    let found = program.find(level.side, level.class, selector);
    found_message(heap, program, found, selector, receiver, arguments)
}

/// The same for a send to `super` in a body of this class or metaclass.
pub fn super_message<H: Heap, P: ProgramFacts>(
    heap: &mut H,
    program: &P,
    class: Value,
    selector: u32,
    receiver: Value,
    arguments: &[Value],
) -> Option<Reply>
    ensures memory { IfSome result (λ reply. H.meaning heap.new ≡ unless_lost reply (H.meaning heap.old) (memory_after (super_action (P.meaning program.now) (H.meaning heap.old).store class selector receiver arguments.now) (H.meaning heap.old))) }
    ensures reply { IfSome result (λ reply. let said = seen (P.meaning program.now) (H.meaning heap.old).store arguments.now reply in said ≡ unless_lost reply said (told_by (super_action (P.meaning program.now) (H.meaning heap.old).store class selector receiver arguments.now) (H.meaning heap.old))) }
    ensures reserved { IfSome result (λ reply. IsTrue H.reserved → is_lost reply ≡ false) }
    ensures rest { IfNone result (H.meaning heap.new ≡ H.meaning heap.old) }
    ensures literals { H.literal_room heap.new ≡ H.literal_room heap.old }
    ensures here { is_some result ≡ is_ready (H.meaning heap.old).store (super_lookup (P.meaning program.now) class selector) receiver arguments.now }
{
    let found = program.find_above(class, selector);
    found_message(heap, program, found, selector, receiver, arguments)
}
