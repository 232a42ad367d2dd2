// The texts of exceptions.
ghost use Rattle.std.specs.Prelude.{◌≡◌};
ghost use Rattle.object_heap.specs.Store.{Store, object_at};
ghost use Rattle.st_code.specs.BuiltIns.{message_class};
ghost use Rattle.st_collections.specs.Kinds.{exception_text, is_a, unkept_text};
ghost use Rattle.st_messages.specs.Pieces.{AreKnown, pieces_text};
ghost use Rattle.st_messages.specs.Printed as printed;

use crate::built_in::{MESSAGE, MESSAGE_NOT_UNDERSTOOD, STRING};
use crate::facts::ProgramFacts;
use crate::level::class_now;
use crate::pieces::{Piece, Words};
use crate::spelling::{is_bare, name_of};
use crate::values::slot_now;
use object_heap::{Heap, Value};

// The name of a class or metaclass.
fn class_piece(class: Value) -> Piece
    ensures { result ≡ printed.class_piece class }
{
    match class {
        Value::Class(class) => Piece::ClassName(class),
        Value::Meta(class) => Piece::ClassName(class),
        _ => Piece::Nothing,
    }
}

// What stands behind the name of a metaclass.
fn class_suffix(class: Value) -> Piece
    ensures { result ≡ printed.class_suffix class }
{
    match class {
        Value::Meta(_) => Piece::Words(Words::Class),
        _ => Piece::Nothing,
    }
}

// A text of one piece.
fn alone(piece: Piece) -> [Piece; 7]
    ensures { result ≡ printed.alone piece }
{
    [
        Piece::Nothing,
        Piece::Nothing,
        Piece::Nothing,
        Piece::Nothing,
        Piece::Nothing,
        Piece::Nothing,
        piece,
    ]
}

// What a class doesn't understand.
fn missed_pieces<P: ProgramFacts>(program: &P, class: Value, selector: Value) -> [Piece; 7]
    ensures { result ≡ printed.missed_pieces (P.meaning program.now) class selector }
{
    let name = class_piece(class);
    let suffix = class_suffix(class);
    let words = Piece::Words(Words::NotUnderstood);
    let nothing = Piece::Nothing;
    match selector {
        Value::Symbol(symbol) => {
            let mark = Piece::Byte(b'#');
            if is_bare(name_of(program, symbol)) {
                return [
                    name,
                    suffix,
                    words,
                    nothing,
                    nothing,
                    mark,
                    Piece::Name(symbol),
                ];
            }
            let quote = Piece::Byte(b'\'');
            [
                name,
                suffix,
                words,
                mark,
                quote,
                Piece::DoubledName(symbol),
                quote,
            ]
        }
        _ => [nothing, nothing, nothing, nothing, name, suffix, words],
    }
}

// Whether a value is a Message.
#[tactic(auto, unfolding(st_collections::specs::Kinds::is_a))]
fn is_message<H: Heap>(heap: &H, value: Value) -> bool
    ensures { result ≡ is_a (H.meaning heap.now).store message_class value }
{
    match value {
        Value::Object(object) => heap.class_of(object) == MESSAGE,
        _ => false,
    }
}

// The pieces of the text of an exception that keeps none.
#[tactic(auto, unfolding(st_collections::specs::Kinds::slot_of, st_collections::specs::Kinds::slots_of))]
fn unkept_pieces<H: Heap, P: ProgramFacts>(heap: &H, program: &P, exception: u32) -> [Piece; 7]
    ensures text { pieces_text (P.meaning program.now) (H.meaning heap.now).store result ≡ unkept_text (P.meaning program.now) (H.meaning heap.now).store exception (object_at exception (H.meaning heap.now).store).class }
    ensures known { AreKnown (H.meaning heap.now).store result }
{
    let class = heap.class_of(exception);
    let message = heap.get(exception, 1);
    if program.is_under(class, MESSAGE_NOT_UNDERSTOOD) && is_message(heap, message) {
        let receiver = class_now(heap, heap.get(exception, 2));
        return missed_pieces(program, receiver, slot_now(heap, message, 0));
    }
    alone(Piece::ClassName(class))
}

/// The pieces of the text of an exception.
#[tactic(auto, unfolding(st_collections::specs::Kinds::exception_text, st_collections::specs::Kinds::bytes_of, st_collections::specs::Kinds::slot_of, st_collections::specs::Kinds::slots_of))]
pub fn exception_pieces<H: Heap, P: ProgramFacts>(
    heap: &H,
    program: &P,
    exception: u32,
) -> [Piece; 7]
    ensures text { pieces_text (P.meaning program.now) (H.meaning heap.now).store result ≡ exception_text (P.meaning program.now) (H.meaning heap.now).store exception }
    ensures known { AreKnown (H.meaning heap.now).store result }
{
    match heap.get(exception, 0) {
        Value::Symbol(name) => alone(Piece::Name(name)),
        Value::Object(object) => {
            if heap.class_of(object) == STRING {
                return alone(Piece::Bytes(object));
            }
            unkept_pieces(heap, program, exception)
        }
        _ => unkept_pieces(heap, program, exception),
    }
}
