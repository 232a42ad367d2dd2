// Texts by their pieces, which are written into an object one behind the other.
ghost use Rattle.std.specs.Prelude.{◌≡◌, ◌≢◌, ◌+◌, ◌<◌, ◌^◌, [], ◌∷◌, length};
ghost use Rattle.std.specs.Fmt.{signed_decimal};
ghost use Rattle.object_heap.specs.Charges.{with_store};
ghost use Rattle.object_heap.specs.Store.{object_at};
ghost use Rattle.st_code.specs.Texts.{quotes_doubled};
ghost use Rattle.st_messages.specs.Pieces.{IsElsewhere, bytes_put, piece_text, words_text};

use crate::facts::ProgramFacts;
use crate::spelling::name_of;
use itoa::Buffer;
use object_heap::Heap;

/// Words that stand in texts.
#[derive(Clone, Copy, Debug, PartialEq, Eq)]
pub enum Words {
    /// `nil`
    Nil,
    /// `true`
    True,
    /// `false`
    False,
    /// `a TranscriptWriter`
    Transcript,
    /// ` class`
    Class,
    /// ` does not understand `
    NotUnderstood,
    /// `Warning: `
    Warning,
    /// `a `
    A,
    /// `an `
    An,
}

/// A piece of a text, by where its bytes stand.
#[derive(Clone, Copy, Debug, PartialEq, Eq)]
pub enum Piece {
    Nothing,
    Byte(u8),
    Words(Words),
    /// An integer in decimal digits.
    Decimal(i128),
    ClassName(u32),
    /// The text of a selector or symbol.
    Name(u32),
    /// The same with each quote doubled.
    DoubledName(u32),
    /// The bytes of an object.
    Bytes(u32),
    /// The same with each quote doubled.
    DoubledBytes(u32),
}

pub fn words_of(words: Words) -> &'static [u8]
    ensures { result.now ≡ words_text words }
{
    match words {
        Words::Nil => b"nil",
        Words::True => b"true",
        Words::False => b"false",
        Words::Transcript => b"a TranscriptWriter",
        Words::Class => b" class",
        Words::NotUnderstood => b" does not understand ",
        Words::Warning => b"Warning: ",
        Words::A => b"a ",
        Words::An => b"an ",
    }
}

/// Writes bytes into an object, and answers the place behind them.
pub fn put_bytes<H: Heap>(heap: &mut H, object: u32, at: u32, bytes: &[u8]) -> u32
    requires { at + length bytes.now < 2 ^ 32 }
    ensures written { H.meaning heap.new ≡ with_store (bytes_put object at bytes.now (H.meaning heap.old).store) (H.meaning heap.old) }
    ensures behind { result ≡ at + length bytes.now }
    ensures literals { H.literal_room heap.new ≡ H.literal_room heap.old }
{
    for place in 0..bytes.len() {
        heap.put_byte(object, at + place as u32, bytes[place]);
    }
    at + bytes.len() as u32
}

// Writes bytes with each quote doubled.
fn put_doubled<H: Heap>(heap: &mut H, object: u32, at: u32, bytes: &[u8]) -> u32
    requires { at + length (quotes_doubled bytes.now) < 2 ^ 32 }
    ensures written { H.meaning heap.new ≡ with_store (bytes_put object at (quotes_doubled bytes.now) (H.meaning heap.old).store) (H.meaning heap.old) }
    ensures behind { result ≡ at + length (quotes_doubled bytes.now) }
    ensures literals { H.literal_room heap.new ≡ H.literal_room heap.old }
{
    let mut at = at;
    for byte in bytes {
        at = put_doubled_byte(heap, object, at, *byte);
    }
    at
}

// Writes a byte, twice where it is a quote.
#[tactic(auto, unfolding(st_code::specs::Texts::quotes_doubled))]
fn put_doubled_byte<H: Heap>(heap: &mut H, object: u32, at: u32, byte: u8) -> u32
    requires { at + length (quotes_doubled (byte ∷ [])) < 2 ^ 32 }
    ensures written { H.meaning heap.new ≡ with_store (bytes_put object at (quotes_doubled (byte ∷ [])) (H.meaning heap.old).store) (H.meaning heap.old) }
    ensures behind { result ≡ at + length (quotes_doubled (byte ∷ [])) }
    ensures literals { H.literal_room heap.new ≡ H.literal_room heap.old }
{
    heap.put_byte(object, at, byte);
    if byte == b'\'' {
        heap.put_byte(object, at + 1, byte);
        return at + 2;
    }
    at + 1
}

/// Writes the bytes of another object, and answers the place behind them.
pub fn put_bytes_of<H: Heap>(heap: &mut H, object: u32, at: u32, from: u32) -> u32
    requires other { 0 < length (object_at from (H.meaning heap.old).store).bytes → from ≢ object }
    requires fits { at + length (object_at from (H.meaning heap.old).store).bytes < 2 ^ 32 }
    ensures written { H.meaning heap.new ≡ with_store (bytes_put object at (object_at from (H.meaning heap.old).store).bytes (H.meaning heap.old).store) (H.meaning heap.old) }
    ensures behind { result ≡ at + length (object_at from (H.meaning heap.old).store).bytes }
    ensures literals { H.literal_room heap.new ≡ H.literal_room heap.old }
{
    let count = heap.byte_length(from);
    for place in 0..count {
        let byte = heap.get_byte(from, place);
        heap.put_byte(object, at + place, byte);
    }
    at + count
}

// Writes the bytes of another object with each quote doubled.
fn put_doubled_of<H: Heap>(heap: &mut H, object: u32, at: u32, from: u32) -> u32
    requires other { from ≢ object }
    requires fits { at + length (quotes_doubled (object_at from (H.meaning heap.old).store).bytes) < 2 ^ 32 }
    ensures written { H.meaning heap.new ≡ with_store (bytes_put object at (quotes_doubled (object_at from (H.meaning heap.old).store).bytes) (H.meaning heap.old).store) (H.meaning heap.old) }
    ensures behind { result ≡ at + length (quotes_doubled (object_at from (H.meaning heap.old).store).bytes) }
    ensures literals { H.literal_room heap.new ≡ H.literal_room heap.old }
{
    let count = heap.byte_length(from);
    let mut at = at;
    for place in 0..count {
        let byte = heap.get_byte(from, place);
        at = put_doubled_byte(heap, object, at, byte);
    }
    at
}

// Writes an integer in decimal digits.
fn put_decimal<H: Heap>(heap: &mut H, object: u32, at: u32, number: i128) -> u32
    requires { at + length (signed_decimal number) < 2 ^ 32 }
    ensures written { H.meaning heap.new ≡ with_store (bytes_put object at (signed_decimal number) (H.meaning heap.old).store) (H.meaning heap.old) }
    ensures behind { result ≡ at + length (signed_decimal number) }
    ensures literals { H.literal_room heap.new ≡ H.literal_room heap.old }
{
    let mut buffer = Buffer::new();
    put_bytes(heap, object, at, buffer.format(number).as_bytes())
}

fn decimal_length(number: i128) -> u128
    ensures length { result ≡ length (signed_decimal number) }
    ensures small { result < 2 ^ 65 }
{
    let mut buffer = Buffer::new();
    buffer.format(number).len() as u128
}

// How many bytes there are where each quote is doubled.
#[tactic(auto, unfolding(st_code::specs::Texts::quotes_doubled))]
fn doubled_length(bytes: &[u8]) -> u128
    ensures length { result ≡ length (quotes_doubled bytes.now) }
    ensures small { result < 2 ^ 65 }
{
    let size = bytes.len() as u128;
    let mut quotes = 0;
    for byte in bytes {
        if *byte == b'\'' {
            quotes += 1;
        }
    }
    size + quotes
}

// How many bytes an object has where each quote is doubled.
#[tactic(auto, unfolding(st_code::specs::Texts::quotes_doubled))]
fn doubled_length_of<H: Heap>(heap: &H, object: u32) -> u128
    ensures length { result ≡ length (quotes_doubled (object_at object (H.meaning heap.now).store).bytes) }
    ensures small { result < 2 ^ 65 }
{
    let count = heap.byte_length(object);
    let mut quotes = 0;
    for place in 0..count {
        if heap.get_byte(object, place) == b'\'' {
            quotes += 1;
        }
    }
    count as u128 + quotes
}

/// How many bytes a piece has.
pub fn piece_length<H: Heap, P: ProgramFacts>(heap: &H, program: &P, piece: Piece) -> u128
    ensures length { result ≡ length (piece_text (P.meaning program.now) (H.meaning heap.now).store piece) }
    ensures small { result < 2 ^ 65 }
{
    match piece {
        Piece::Nothing => 0,
        Piece::Byte(_) => 1,
        Piece::Words(words) => words_of(words).len() as u128,
        Piece::Decimal(number) => decimal_length(number),
        Piece::ClassName(class) => program.class_name(class).len() as u128,
        Piece::Name(name) => name_of(program, name).len() as u128,
        Piece::DoubledName(name) => doubled_length(name_of(program, name)),
        Piece::Bytes(object) => heap.byte_length(object) as u128,
        Piece::DoubledBytes(object) => doubled_length_of(heap, object),
    }
}

/// Writes a piece into an object that it isn't read from, and answers the place behind it.
pub fn put_piece<H: Heap, P: ProgramFacts>(
    heap: &mut H,
    program: &P,
    object: u32,
    at: u32,
    piece: Piece,
) -> u32
    requires other { IsElsewhere object piece }
    requires fits { at + length (piece_text (P.meaning program.now) (H.meaning heap.old).store piece) < 2 ^ 32 }
    ensures written { H.meaning heap.new ≡ with_store (bytes_put object at (piece_text (P.meaning program.now) (H.meaning heap.old).store piece) (H.meaning heap.old).store) (H.meaning heap.old) }
    ensures behind { result ≡ at + length (piece_text (P.meaning program.now) (H.meaning heap.old).store piece) }
    ensures literals { H.literal_room heap.new ≡ H.literal_room heap.old }
{
    match piece {
        Piece::Nothing => at,
        Piece::Byte(byte) => put_bytes(heap, object, at, &[byte]),
        Piece::Words(words) => put_bytes(heap, object, at, words_of(words)),
        Piece::Decimal(number) => put_decimal(heap, object, at, number),
        Piece::ClassName(class) => put_bytes(heap, object, at, program.class_name(class)),
        Piece::Name(name) => put_bytes(heap, object, at, name_of(program, name)),
        Piece::DoubledName(name) => { put_doubled(heap, object, at, name_of(program, name)) }
        Piece::Bytes(from) => put_bytes_of(heap, object, at, from),
        Piece::DoubledBytes(from) => put_doubled_of(heap, object, at, from),
    }
}
