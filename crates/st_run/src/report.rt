// The lines of the report.
ghost use Rattle.std.specs.Prelude.{◌≡◌, ◌++◌, IfOk, codes, decimal};
ghost use Rattle.st_base.specs.Streams.{HasCause};
ghost use Rattle.st_machine.specs.Meaning.{ending_of};
ghost use Rattle.st_machine.specs.Plans.{program_in};
ghost use Rattle.st_transcript.specs.Gained.{Gains};
ghost use Rattle.st_transcript.specs.Unhandled.{unhandled_text};
ghost use Rattle.st_run.specs.Reports.{ending_line, limit_line, reason_word, refused_line, stats_line};

use cell_heap::CellHeap;
use itoa::Buffer;
use object_heap::Value;
use st_base::{Failed, Limits, OutOfMemory, Place, Reason, Sink, put_all};
use st_machine::{Ending, Machine, Stats};
use std::alloc::Global;

pub const USAGE: &[u8] = b"stx: usage: stx [options] run|check|list|export|gen|trace|audit|shake\n";

pub const READ_FAULT: &[u8] = b"stx: read fault\n";

pub const OUT_OF_MEMORY: &[u8] = b"stx: out of memory\n";

// The word of a reason.
fn word(reason: Reason) -> &'static [u8]
    ensures { result.now ≡ reason_word reason }
{
    match reason {
        Reason::MissingVersion => b"MissingVersion",
        Reason::MissingText => b"MissingText",
        Reason::Unfinished => b"Unfinished",
        Reason::ElementTooLong => b"ElementTooLong",
        Reason::InputTooLong => b"InputTooLong",
        Reason::BadCharacter => b"BadCharacter",
        Reason::OpenString => b"OpenString",
        Reason::OpenComment => b"OpenComment",
        Reason::BadRadix => b"BadRadix",
        Reason::IntegerTooLarge => b"IntegerTooLarge",
        Reason::FloatOutside => b"FloatOutside",
        Reason::Syntax => b"Syntax",
        Reason::TooDeep => b"TooDeep",
        Reason::DuplicateClass => b"DuplicateClass",
        Reason::DuplicateName => b"DuplicateName",
        Reason::UnknownSuperclass => b"UnknownSuperclass",
        Reason::IndexedClash => b"IndexedClash",
        Reason::DuplicateVariable => b"DuplicateVariable",
        Reason::UnknownPool => b"UnknownPool",
        Reason::UnknownClass => b"UnknownClass",
        Reason::ReplacesBuiltin => b"ReplacesBuiltin",
        Reason::DuplicateMethod => b"DuplicateMethod",
        Reason::UnknownTarget => b"UnknownTarget",
        Reason::SecondInitializer => b"SecondInitializer",
        Reason::UndeclaredName => b"UndeclaredName",
        Reason::NotAssignable => b"NotAssignable",
    }
}

/// The line of a refusal.
pub fn refusal(alloc: Global, place: Place, reason: Reason) -> Result<Vec<u8>, OutOfMemory>
    ensures { IfOk result (λ line. line.items ≡ refused_line place reason) }
{
    let mut number = Buffer::new();
    let mut line = Vec::from_slice(alloc, b"stx: refused element ")?;
    line.extend_from_slice(number.format(place.element).as_bytes())?;
    line.extend_from_slice(b" byte ")?;
    line.extend_from_slice(number.format(place.byte).as_bytes())?;
    line.extend_from_slice(b" ")?;
    line.extend_from_slice(word(reason))?;
    line.extend_from_slice(b"\n")?;
    Ok(line)
}

// Writes some bytes.
fn put<E: Sink>(bytes: &[u8], report: &mut E) -> Result<(), Failed>
    ensures text { Gains (E.written report.old) (E.written report.new) result (bytes.now) }
    ensures cause { HasCause (E.faults report.old) (E.faults report.new) result }
{
    put_all(report, bytes)
}

// Writes a number in decimal digits.
fn put_decimal<E: Sink>(number: u64, report: &mut E) -> Result<(), Failed>
    ensures text { Gains (E.written report.old) (E.written report.new) result (decimal number) }
    ensures cause { HasCause (E.faults report.old) (E.faults report.new) result }
{
    let mut digits = Buffer::new();
    put(digits.format(number).as_bytes(), report)
}

// Writes a word and a number.
fn put_number<E: Sink>(word: &[u8], number: u64, report: &mut E) -> Result<(), Failed>
    ensures text { Gains (E.written report.old) (E.written report.new) result (word.now ++ decimal number) }
    ensures cause { HasCause (E.faults report.old) (E.faults report.new) result }
{
    put(word, report)?;
    put_decimal(number, report)
}

// Writes a line that ends in a number.
fn put_limit<E: Sink>(word: &[u8], number: u64, report: &mut E) -> Result<(), Failed>
    ensures text { Gains (E.written report.old) (E.written report.new) result (limit_line word.now number) }
    ensures cause { HasCause (E.faults report.old) (E.faults report.new) result }
{
    put_number(word, number, report)?;
    put(b"\n", report)
}

/// Writes the line of the statistics.
pub fn put_stats<E: Sink>(stats: Stats, report: &mut E) -> Result<(), Failed>
    ensures text { Gains (E.written report.old) (E.written report.new) result
        (stats_line stats.steps stats.depth stats.cells stats.instructions) }
    ensures cause { HasCause (E.faults report.old) (E.faults report.new) result }
{
    put_number(b"stx: steps ", stats.steps, report)?;
    put_number(b" depth ", u64::from(stats.depth), report)?;
    put_number(b" cells ", u64::from(stats.cells), report)?;
    put_limit(b" instructions ", stats.instructions, report)
}

// Writes the line of an exception that nothing handled.
fn put_exception<E: Sink>(
    machine: &Machine<CellHeap>,
    exception: Value,
    report: &mut E,
) -> Result<(), Failed>
    ensures text { Gains (E.written report.old) (E.written report.new) result
        (codes "stx: unhandled "
        ++ unhandled_text (program_in machine.now.plan) machine.now.memory.store exception ++ codes "\n") }
    ensures cause { HasCause (E.faults report.old) (E.faults report.new) result }
{
    put(b"stx: unhandled ", report)?;
    machine.put_unhandled(exception, report)?;
    put(b"\n", report)
}

/// Writes the line of a run that ended so: nothing where it is done.
pub fn put_ending<E: Sink>(
    machine: &Machine<CellHeap>,
    limits: Limits,
    ending: Ending,
    report: &mut E,
) -> Result<(), Failed>
    ensures text { Gains (E.written report.old) (E.written report.new) result
        (ending_line (program_in machine.now.plan) limits machine.now.memory.store (ending_of ending)) }
    ensures cause { HasCause (E.faults report.old) (E.faults report.new) result }
{
    match ending {
        Ending::Done | Ending::Stranded => put(b"", report),
        Ending::Unhandled { exception } => put_exception(machine, exception, report),
        Ending::Steps => put_limit(b"stx: step limit ", limits.steps, report),
        Ending::Depth => put_limit(b"stx: depth limit ", u64::from(limits.depth), report),
        Ending::Cells => put_limit(b"stx: cell limit ", u64::from(limits.cells), report),
        Ending::Integer => put(b"stx: integer limit\n", report),
    }
}
