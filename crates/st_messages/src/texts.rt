// New Strings of texts that are given by pieces.
ghost use Rattle.std.specs.Prelude.{◌≡◌, ◌<◌, ◌≤◌, ◌^◌, false, IsTrue, length};
ghost use Rattle.st_collections.specs.Actions.{makes_string};
ghost use Rattle.st_collections.specs.Answers.{answer_of, is_out, memory_of, unless_out};
ghost use Rattle.st_messages.specs.Pieces.{AreKnown, pieces_text};

use crate::built_in::STRING;
use crate::facts::ProgramFacts;
use crate::makers::{answer_stop, blank};
use crate::pieces::{Piece, piece_length, put_bytes, put_piece};
use object_heap::{Heap, Value};
use st_collections::Built;

// How many bytes pieces have together.
fn pieces_length<H: Heap, P: ProgramFacts>(heap: &H, program: &P, pieces: &[Piece]) -> u128
    requires { length pieces.now ≤ 8 }
    ensures { result ≡ length (pieces_text (P.meaning program.now) (H.meaning heap.now).store pieces.now) }
{
    let mut count = 0;
    for piece in pieces {
        count += piece_length(heap, program, *piece);
    }
    count
}

/// A new String of these pieces.
pub fn new_text<H: Heap, P: ProgramFacts>(heap: &mut H, program: &P, pieces: &[Piece]) -> Built
    requires few { length pieces.now ≤ 8 }
    requires known { AreKnown (H.meaning heap.old).store pieces.now }
    ensures memory { H.meaning heap.new ≡ unless_out result (H.meaning heap.old) (memory_of (makes_string (pieces_text (P.meaning program.now) (H.meaning heap.old).store pieces.now) (H.meaning heap.old).store) (H.meaning heap.old)) }
    ensures answer { result ≡ unless_out result result (answer_of (makes_string (pieces_text (P.meaning program.now) (H.meaning heap.old).store pieces.now) (H.meaning heap.old).store) (H.meaning heap.old)) }
    ensures reserved { IsTrue H.reserved → is_out result ≡ false }
    ensures literals { H.literal_room heap.new ≡ H.literal_room heap.old }
{
    let count = pieces_length(heap, program, pieces);
    let object = match blank(heap, STRING, 0, count) {
        Ok(object) => object,
        Err(stop) => return answer_stop(stop),
    };
    let mut at = 0;
    for piece in pieces {
        at = put_piece(heap, program, object, at, *piece);
    }
    Built::Value(Value::Object(object))
}

/// A new String of these bytes.
pub fn new_bytes<H: Heap>(heap: &mut H, bytes: &[u8]) -> Built
    ensures memory { H.meaning heap.new ≡ unless_out result (H.meaning heap.old) (memory_of (makes_string bytes.now (H.meaning heap.old).store) (H.meaning heap.old)) }
    ensures answer { result ≡ unless_out result result (answer_of (makes_string bytes.now (H.meaning heap.old).store) (H.meaning heap.old)) }
    ensures reserved { IsTrue H.reserved → is_out result ≡ false }
    ensures literals { H.literal_room heap.new ≡ H.literal_room heap.old }
{
    let object = match blank(heap, STRING, 0, bytes.len() as u128) {
        Ok(object) => object,
        Err(stop) => return answer_stop(stop),
    };
    put_bytes(heap, object, 0, bytes);
    Built::Value(Value::Object(object))
}
