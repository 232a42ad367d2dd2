// Texts by their pieces, written one behind the other.
ghost use Rattle.std.specs.Prelude.{◌≡◌};
ghost use Rattle.std.specs.Fmt.{signed_decimal};
ghost use Rattle.st_base.specs.Streams.{HasCause};
ghost use Rattle.st_messages.specs.Pieces.{piece_text, pieces_text};
ghost use Rattle.st_transcript.specs.Gained.{Gains};

use crate::bytes::{put, put_bytes_of, put_doubled, put_doubled_of};
use itoa::Buffer;
use object_heap::Heap;
use st_base::{Failed, Sink};
use st_messages::{Piece, ProgramFacts, name_of, words_of};

// Writes an integer in decimal digits.
fn put_decimal<K: Sink>(out: &mut K, number: i128) -> Result<(), Failed>
    ensures text { Gains (K.written out.old) (K.written out.new) result (signed_decimal number) }
    ensures cause { HasCause (K.faults out.old) (K.faults out.new) result }
{
    let mut buffer = Buffer::new();
    put(out, buffer.format(number).as_bytes())
}

// Writes a piece.
fn put_piece<H: Heap, P: ProgramFacts, K: Sink>(
    heap: &H,
    program: &P,
    piece: Piece,
    out: &mut K,
) -> Result<(), Failed>
    ensures text { Gains (K.written out.old) (K.written out.new) result (piece_text (P.meaning program.now) (H.meaning heap.now).store piece) }
    ensures cause { HasCause (K.faults out.old) (K.faults out.new) result }
{
    match piece {
        Piece::Nothing => put(out, b""),
        Piece::Byte(byte) => put(out, &[byte]),
        Piece::Words(words) => put(out, words_of(words)),
        Piece::Decimal(number) => put_decimal(out, number),
        Piece::ClassName(class) => put(out, program.class_name(class)),
        Piece::Name(name) => put(out, name_of(program, name)),
        Piece::DoubledName(name) => put_doubled(out, name_of(program, name)),
        Piece::Bytes(object) => put_bytes_of(heap, object, out),
        Piece::DoubledBytes(object) => put_doubled_of(heap, object, out),
    }
}

/// Writes pieces one behind the other.
pub fn put_pieces<H: Heap, P: ProgramFacts, K: Sink>(
    heap: &H,
    program: &P,
    pieces: &[Piece],
    out: &mut K,
) -> Result<(), Failed>
    ensures text { Gains (K.written out.old) (K.written out.new) result (pieces_text (P.meaning program.now) (H.meaning heap.now).store pieces.now) }
    ensures cause { HasCause (K.faults out.old) (K.faults out.new) result }
{
    for piece in pieces {
        put_piece(heap, program, *piece, out)?;
    }
    Ok(())
}
