// What goes to the Transcript, and what a report says of an exception.
ghost use Rattle.std.specs.Prelude.{◌≡◌, ◌++◌, ◌∷◌, [], codes};
ghost use Rattle.st_base.specs.Streams.{HasCause};
ghost use Rattle.st_collections.specs.Kinds.{exception_text};
ghost use Rattle.st_collections.specs.Orders.{text_of};
ghost use Rattle.st_messages.specs.Replies.{written_text};
ghost use Rattle.st_transcript.specs.Gained.{Gains};
ghost use Rattle.st_transcript.specs.Unhandled.{unhandled_text};

use crate::bytes::{put, put_bytes_of};
use crate::pieces::put_pieces;
use object_heap::{Heap, Value};
use st_base::{Failed, Sink};
use st_messages::{ProgramFacts, Written, exception_pieces, name_of};

const STRING: u32 = 9;

// Writes the bytes of a String or Symbol, and nothing for any other value.
#[tactic(auto, unfolding(st_collections::specs::Kinds::bytes_of))]
fn put_text_of<H: Heap, P: ProgramFacts, K: Sink>(
    heap: &H,
    program: &P,
    value: Value,
    out: &mut K,
) -> Result<(), Failed>
    ensures text { Gains (K.written out.old) (K.written out.new) result (text_of (P.meaning program.now) (H.meaning heap.now).store value) }
    ensures cause { HasCause (K.faults out.old) (K.faults out.new) result }
{
    match value {
        Value::Symbol(name) => put(out, name_of(program, name)),
        Value::Object(object) => {
            if heap.class_of(object) == STRING {
                return put_bytes_of(heap, object, out);
            }
            put(out, b"")
        }
        _ => put(out, b""),
    }
}

// Writes the text of an exception.
fn put_exception<H: Heap, P: ProgramFacts, K: Sink>(
    heap: &H,
    program: &P,
    exception: u32,
    out: &mut K,
) -> Result<(), Failed>
    ensures text { Gains (K.written out.old) (K.written out.new) result (exception_text (P.meaning program.now) (H.meaning heap.now).store exception) }
    ensures cause { HasCause (K.faults out.old) (K.faults out.new) result }
{
    let pieces = exception_pieces(heap, program, exception);
    put_pieces(heap, program, &pieces, out)
}

// Writes what the default action of a Warning writes.
fn put_warning<H: Heap, P: ProgramFacts, K: Sink>(
    heap: &H,
    program: &P,
    exception: u32,
    out: &mut K,
) -> Result<(), Failed>
    ensures text { Gains (K.written out.old) (K.written out.new) result (codes "Warning: " ++ exception_text (P.meaning program.now) (H.meaning heap.now).store exception ++ 10 ∷ []) }
    ensures cause { HasCause (K.faults out.old) (K.faults out.new) result }
{
    put(out, b"Warning: ")?;
    put_exception(heap, program, exception, out)?;
    put(out, b"\n")
}

/// Writes to the Transcript what a message asks for (section 5.10).
pub fn put_written<H: Heap, P: ProgramFacts, K: Sink>(
    heap: &H,
    program: &P,
    written: Written,
    out: &mut K,
) -> Result<(), Failed>
    ensures text { Gains (K.written out.old) (K.written out.new) result (written_text (P.meaning program.now) (H.meaning heap.now).store written) }
    ensures cause { HasCause (K.faults out.old) (K.faults out.new) result }
{
    match written {
        Written::Nothing => put(out, b""),
        Written::Byte(byte) => put(out, &[byte]),
        Written::TextOf(value) => put_text_of(heap, program, value, out),
        Written::Warning(exception) => put_warning(heap, program, exception, out),
    }
}

// Writes the class and the text of an exception.
fn put_class_and_text<H: Heap, P: ProgramFacts, K: Sink>(
    heap: &H,
    program: &P,
    exception: u32,
    report: &mut K,
) -> Result<(), Failed>
    ensures text { Gains (K.written report.old) (K.written report.new) result (unhandled_text (P.meaning program.now) (H.meaning heap.now).store (Value.Object exception)) }
    ensures cause { HasCause (K.faults report.old) (K.faults report.new) result }
{
    put(report, program.class_name(heap.class_of(exception)))?;
    put(report, b": ")?;
    put_exception(heap, program, exception, report)
}

/// Writes `CLASS: TEXT` of an exception that nothing handled. A value that is no object has none.
pub fn put_unhandled<H: Heap, P: ProgramFacts, K: Sink>(
    heap: &H,
    program: &P,
    exception: Value,
    report: &mut K,
) -> Result<(), Failed>
    ensures text { Gains (K.written report.old) (K.written report.new) result (unhandled_text (P.meaning program.now) (H.meaning heap.now).store exception) }
    ensures cause { HasCause (K.faults report.old) (K.faults report.new) result }
{
    match exception {
        Value::Object(object) => put_class_and_text(heap, program, object, report),
        _ => put(report, b""),
    }
}
