// The top call: what the program does.
ghost use Rattle.std.specs.Prelude.{◌≡◌, map, string_bytes, IfOk, Some};
ghost use Rattle.st_words.specs.CommandLine.{command_of, IsInBounds};
ghost use Rattle.st_run.specs.Devices.{device};
ghost use Rattle.st_run.specs.Commands.{behind, ReadsProgram};
ghost use Rattle.st_run.specs.Claim.{Claimed};
ghost use Rattle.st_run.specs.Ends.{Calls};

use crate::auditing::audit_trace;
use crate::finish::{judge, refuse, report_usage, report_want_of_memory, tell};
use crate::report::READ_FAULT;
use crate::status::Status;
use sif_chunks::Appendix;
use sif_elements::reading::{ReadAnswer, read_file};
use st_base::{OutOfMemory, Sink, Source};
use st_gen::generated;
use st_words::{Command, Task, command_of};
use std::alloc::Global;

// What stands behind the input of a command.
fn behind(alloc: Global, command: Command) -> Result<Vec<u8>, OutOfMemory>
    ensures { IfOk result (λ lines. lines.items ≡ behind command) }
{
    match command.task {
        Task::Gen => generated(alloc, command.seed, command.size),
        _ => Ok(Vec::new(alloc)),
    }
}

// Reads a program, with these bytes behind it, and does what a command asks for.
fn obey_with<S: Source, K: Sink, E: Sink>(
    alloc: Global,
    command: Command,
    lines: &[u8],
    source: &mut S,
    out: &mut K,
    report: &mut E,
) -> Status
    requires lines { lines.now ≡ behind command }
    requires bounds { IsInBounds command }
    requires program { ReadsProgram command.task }
    ensures { Calls (Some command)
        (device (S.left source.old) (S.faults source.old) (S.left source.new) (S.faults source.new))
        (device (K.written out.old) (K.faults out.old) (K.written out.new) (K.faults out.new))
        (device (E.written report.old) (E.faults report.old) (E.written report.new) (E.faults report.new)) result }
{
    let mut appendix = Appendix::new(lines);
    let read = read_file(alloc, source, &mut appendix);
    let bytes = read.bytes;
    let answer = read.answer;
    match answer {
        ReadAnswer::Read(definition) => judge(alloc, command, bytes, definition, out, report),
        ReadAnswer::Refused(place, reason) => refuse(alloc, place, reason, report),
        ReadAnswer::ReadFault => tell(report, READ_FAULT, Status::ReadFault),
        ReadAnswer::OutOfMemory => report_want_of_memory(report),
    }
}

// Reads a program, and does what a command asks for.
fn obey_on_program<S: Source, K: Sink, E: Sink>(
    alloc: Global,
    command: Command,
    source: &mut S,
    out: &mut K,
    report: &mut E,
) -> Status
    requires bounds { IsInBounds command }
    requires program { ReadsProgram command.task }
    ensures { Calls (Some command)
        (device (S.left source.old) (S.faults source.old) (S.left source.new) (S.faults source.new))
        (device (K.written out.old) (K.faults out.old) (K.written out.new) (K.faults out.new))
        (device (E.written report.old) (E.faults report.old) (E.written report.new) (E.faults report.new)) result }
{
    match behind(alloc, command) {
        Ok(lines) => obey_with(alloc, command, lines.as_slice(), source, out, report),
        Err(_) => report_want_of_memory(report),
    }
}

// Does what a command asks for.
fn obey<S: Source, K: Sink, E: Sink>(
    alloc: Global,
    command: Command,
    source: &mut S,
    out: &mut K,
    report: &mut E,
) -> Status
    requires { IsInBounds command }
    ensures { Calls (Some command)
        (device (S.left source.old) (S.faults source.old) (S.left source.new) (S.faults source.new))
        (device (K.written out.old) (K.faults out.old) (K.written out.new) (K.faults out.new))
        (device (E.written report.old) (E.faults report.old) (E.written report.new) (E.faults report.new)) result }
{
    match command.task {
        Task::Audit => audit_trace(alloc, command, source, out, report),
        _ => obey_on_program(alloc, command, source, out, report),
    }
}

// Does what the words ask for.
fn call<S: Source, K: Sink, E: Sink>(
    alloc: Global,
    words: &[String],
    source: &mut S,
    out: &mut K,
    report: &mut E,
) -> Status
    ensures { Calls (command_of (map string_bytes words.now))
        (device (S.left source.old) (S.faults source.old) (S.left source.new) (S.faults source.new))
        (device (K.written out.old) (K.faults out.old) (K.written out.new) (K.faults out.new))
        (device (E.written report.old) (E.faults report.old) (E.written report.new) (E.faults report.new)) result }
{
    match command_of(alloc, words) {
        Ok(Some(command)) => obey(alloc, command, source, out, report),
        Ok(None) => report_usage(report),
        Err(_) => report_want_of_memory(report),
    }
}

/// Does all that the program does for its words and its input, and answers how it ended. All of the
/// input is read and checked before any output is written. The Transcript is written as the run goes
/// on, and all of the output before the report. `Claimed` says what is promised, a clause a line.
pub fn stx<S: Source, K: Sink, E: Sink>(
    alloc: Global,
    words: &[String],
    source: &mut S,
    out: &mut K,
    report: &mut E,
) -> Status
    ensures { Claimed (record {
      words = map string_bytes words.now;
      source = device (S.left source.old) (S.faults source.old) (S.left source.new) (S.faults source.new);
      out = device (K.written out.old) (K.faults out.old) (K.written out.new) (K.faults out.new);
      report = device (E.written report.old) (E.faults report.old) (E.written report.new) (E.faults report.new);
      status = result;
    }) }
{
    call(alloc, words, source, out, report)
}
