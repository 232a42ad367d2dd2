// What `audit` does with a trace.
ghost use Rattle.std.specs.Prelude.{◌≡◌, IfOk, Some};
ghost use Rattle.st_words.specs.declared.command.Task.TheVariants.{Audit};
ghost use Rattle.st_trace.specs.declared.auditing.AuditAnswer.TheVariants as audit_answer;
ghost use Rattle.st_run.specs.Reports.{audit_line, audit_word, disciplined_line};
ghost use Rattle.st_run.specs.Outcomes.{audited};
ghost use Rattle.st_run.specs.Devices.{Device, device, Keeps};
ghost use Rattle.st_run.specs.Ends.{Calls, Finishes};

use crate::finish::{report_want_of_memory, tell, write_made};
use crate::report::READ_FAULT;
use crate::status::Status;
use itoa::Buffer;
use st_base::{OutOfMemory, Sink, Source};
use st_trace::{AuditAnswer, AuditReason, audit};
use st_words::Command;
use std::alloc::Global;

// The word of a reason.
fn word(reason: AuditReason) -> &'static [u8]
    ensures { result.now ≡ audit_word reason }
{
    match reason {
        AuditReason::Line => b"Line",
        AuditReason::Order => b"Order",
        AuditReason::Missing => b"Missing",
        AuditReason::InputTooLong => b"InputTooLong",
    }
}

// The line that names the first line that can't stand.
fn audit_line(alloc: Global, number: u64, reason: AuditReason) -> Result<Vec<u8>, OutOfMemory>
    ensures { IfOk result (λ line. line.items ≡ audit_line number reason) }
{
    let mut digits = Buffer::new();
    let mut line = Vec::from_slice(alloc, b"stx: audit event ")?;
    line.extend_from_slice(digits.format(number).as_bytes())?;
    line.extend_from_slice(b" ")?;
    line.extend_from_slice(word(reason))?;
    line.extend_from_slice(b"\n")?;
    Ok(line)
}

// The line of a trace that is disciplined.
fn disciplined_line(alloc: Global, lines: u64) -> Result<Vec<u8>, OutOfMemory>
    ensures { IfOk result (λ line. line.items ≡ disciplined_line lines) }
{
    let mut digits = Buffer::new();
    let mut line = Vec::from_slice(alloc, b"disciplined ")?;
    line.extend_from_slice(digits.format(lines).as_bytes())?;
    line.extend_from_slice(b" events\n")?;
    Ok(line)
}

// Reports the first line that can't stand.
fn refuse_trace<E: Sink>(alloc: Global, line: u64, reason: AuditReason, report: &mut E) -> Status
    ensures { (out : Device) → Keeps out → Finishes (audited (audit_answer.Refused line reason)) out
        (device (E.written report.old) (E.faults report.old) (E.written report.new) (E.faults report.new)) result }
{
    match audit_line(alloc, line, reason) {
        Ok(line) => tell(report, line.as_slice(), Status::Undisciplined),
        Err(_) => report_want_of_memory(report),
    }
}

/// Audits a trace, and writes that it is disciplined, or reports the first line that can't stand.
pub(crate) fn audit_trace<S: Source, K: Sink, E: Sink>(
    alloc: Global,
    command: Command,
    source: &mut S,
    out: &mut K,
    report: &mut E,
) -> Status
    requires { command.task ≡ Audit }
    ensures { Calls (Some command)
        (device (S.left source.old) (S.faults source.old) (S.left source.new) (S.faults source.new))
        (device (K.written out.old) (K.faults out.old) (K.written out.new) (K.faults out.new))
        (device (E.written report.old) (E.faults report.old) (E.written report.new) (E.faults report.new)) result }
{
    match audit(alloc, source) {
        AuditAnswer::Disciplined(lines) => write_made(disciplined_line(alloc, lines), out, report),
        AuditAnswer::Refused(line, reason) => refuse_trace(alloc, line, reason, report),
        AuditAnswer::ReadFault => tell(report, READ_FAULT, Status::ReadFault),
        AuditAnswer::OutOfMemory => report_want_of_memory(report),
    }
}
