// How values and exceptions are written.
ghost use Rattle.std.specs.Prelude.{◌≡◌, ◌++◌, codes, false, IsTrue};
ghost use Rattle.object_heap.specs.declared.value.Value.{Value};
ghost use Rattle.object_heap.specs.Store.{Store};
ghost use Rattle.st_code.specs.Program.{name_at};
ghost use Rattle.st_code.specs.Texts.{holds_byte, symbol_text, with_article};
ghost use Rattle.st_collections.specs.Actions.{makes_string};
ghost use Rattle.st_collections.specs.Answers.{answer_of, is_out, memory_of, unless_out};
ghost use Rattle.st_collections.specs.Kinds.{integer_of, print_text};
ghost use Rattle.st_messages.specs.Pieces.{AreKnown, pieces_text, words_text};
ghost use Rattle.st_messages.specs.Printed as printed;

use crate::built_in::{FRACTION, STRING};
use crate::facts::ProgramFacts;
use crate::pieces::{Piece, Words};
use crate::spelling::{is_bare, name_of};
use crate::texts::new_text;
use object_heap::{Heap, Value};
use st_collections::Built;

/// An Integer, and 0 for any other value.
pub fn integer_in(value: Value) -> i128
    ensures { result ≡ integer_of value }
{
    match value {
        Value::Integer(number) => number,
        _ => 0,
    }
}

// The pieces of a symbol as it is written.
fn symbol_pieces<P: ProgramFacts>(program: &P, name: u32) -> [Piece; 4]
    ensures { result ≡ printed.symbol_pieces (printed.is_bare (name_at (P.meaning program.now) name)) name }
{
    if is_bare(name_of(program, name)) {
        return [
            Piece::Nothing,
            Piece::Nothing,
            Piece::Byte(b'#'),
            Piece::Name(name),
        ];
    }
    [
        Piece::Byte(b'#'),
        Piece::Byte(b'\''),
        Piece::DoubledName(name),
        Piece::Byte(b'\''),
    ]
}

#[tactic(auto, unfolding(st_code::specs::Texts::holds_byte))]
fn is_vowel(byte: u8) -> bool
    ensures { result ≡ holds_byte (codes "AEIOU") byte }
{
    matches!(byte, b'A' | b'E' | b'I' | b'O' | b'U')
}

// The article of a name.
#[tactic(auto, unfolding(st_code::specs::Texts::with_article))]
fn article(name: &[u8]) -> Words
    ensures { words_text result ++ name.now ≡ with_article name.now }
{
    match name.split_first() {
        Some((first, _)) => {
            if is_vowel(*first) {
                return Words::An;
            }
            Words::A
        }
        None => Words::A,
    }
}

// How an object is written.
#[tactic(auto, unfolding(st_collections::specs::Kinds::print_text, st_collections::specs::Kinds::slot_of, st_collections::specs::Kinds::slots_of, st_code::specs::Texts::quoted))]
fn print_object<H: Heap, P: ProgramFacts>(heap: &mut H, program: &P, object: u32) -> Built
    ensures memory { H.meaning heap.new ≡ unless_out result (H.meaning heap.old) (memory_of (makes_string (print_text (P.meaning program.now) (H.meaning heap.old).store (Value.Object object)) (H.meaning heap.old).store) (H.meaning heap.old)) }
    ensures answer { result ≡ unless_out result result (answer_of (makes_string (print_text (P.meaning program.now) (H.meaning heap.old).store (Value.Object object)) (H.meaning heap.old).store) (H.meaning heap.old)) }
    ensures reserved { IsTrue H.reserved → is_out result ≡ false }
    ensures literals { H.literal_room heap.new ≡ H.literal_room heap.old }
{
    let class = heap.class_of(object);
    if class == STRING {
        let quote = Piece::Byte(b'\'');
        return new_text(heap, program, &[quote, Piece::DoubledBytes(object), quote]);
    }
    if class == FRACTION {
        let over = Piece::Decimal(integer_in(heap.get(object, 0)));
        let under = Piece::Decimal(integer_in(heap.get(object, 1)));
        return new_text(heap, program, &[over, Piece::Byte(b'/'), under]);
    }
    let words = article(program.class_name(class));
    new_text(
        heap,
        program,
        &[Piece::Words(words), Piece::ClassName(class)],
    )
}

// A new String of words.
fn print_words<H: Heap, P: ProgramFacts>(heap: &mut H, program: &P, words: Words) -> Built
    ensures memory { H.meaning heap.new ≡ unless_out result (H.meaning heap.old) (memory_of (makes_string (words_text words) (H.meaning heap.old).store) (H.meaning heap.old)) }
    ensures answer { result ≡ unless_out result result (answer_of (makes_string (words_text words) (H.meaning heap.old).store) (H.meaning heap.old)) }
    ensures reserved { IsTrue H.reserved → is_out result ≡ false }
    ensures literals { H.literal_room heap.new ≡ H.literal_room heap.old }
{
    new_text(heap, program, &[Piece::Words(words)])
}

// A new String of a symbol as it is written.
fn print_symbol<H: Heap, P: ProgramFacts>(heap: &mut H, program: &P, name: u32) -> Built
    ensures memory { H.meaning heap.new ≡ unless_out result (H.meaning heap.old) (memory_of (makes_string (symbol_text (name_at (P.meaning program.now) name)) (H.meaning heap.old).store) (H.meaning heap.old)) }
    ensures answer { result ≡ unless_out result result (answer_of (makes_string (symbol_text (name_at (P.meaning program.now) name)) (H.meaning heap.old).store) (H.meaning heap.old)) }
    ensures reserved { IsTrue H.reserved → is_out result ≡ false }
    ensures literals { H.literal_room heap.new ≡ H.literal_room heap.old }
{
    let pieces = symbol_pieces(program, name);
    new_text(heap, program, &pieces)
}

/// What `printString` answers.
#[tactic(auto, unfolding(st_collections::specs::Kinds::print_text))]
pub fn print_string<H: Heap, P: ProgramFacts>(heap: &mut H, program: &P, receiver: Value) -> Built
    ensures memory { H.meaning heap.new ≡ unless_out result (H.meaning heap.old) (memory_of (makes_string (print_text (P.meaning program.now) (H.meaning heap.old).store receiver) (H.meaning heap.old).store) (H.meaning heap.old)) }
    ensures answer { result ≡ unless_out result result (answer_of (makes_string (print_text (P.meaning program.now) (H.meaning heap.old).store receiver) (H.meaning heap.old).store) (H.meaning heap.old)) }
    ensures reserved { IsTrue H.reserved → is_out result ≡ false }
    ensures literals { H.literal_room heap.new ≡ H.literal_room heap.old }
{
    match receiver {
        Value::Nil => print_words(heap, program, Words::Nil),
        Value::True => print_words(heap, program, Words::True),
        Value::False => print_words(heap, program, Words::False),
        Value::Transcript => print_words(heap, program, Words::Transcript),
        Value::Integer(number) => new_text(heap, program, &[Piece::Decimal(number)]),
        Value::Character(byte) => {
            new_text(heap, program, &[Piece::Byte(b'$'), Piece::Byte(byte)])
        }
        Value::Symbol(name) => print_symbol(heap, program, name),
        Value::Class(class) => new_text(heap, program, &[Piece::ClassName(class)]),
        Value::Meta(class) => {
            let pieces = [Piece::ClassName(class), Piece::Words(Words::Class)];
            new_text(heap, program, &pieces)
        }
        Value::Object(object) => print_object(heap, program, object),
    }
}
