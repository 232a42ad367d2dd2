// The ends of a call: what is written, and the status.
ghost use Rattle.std.specs.Prelude.{◌≡◌, ◌≢◌, ◌⊎◌, ◌<◌, ◌^◌, ◌-◌, ℕ, List, IfOk};
ghost use Rattle.std.specs.Io.KnownBytes.{append_known};
ghost use Rattle.st_base.specs.Streams.{Rose, GainsPrefix};
ghost use Rattle.st_tree.specs.Numbers.{elements_in};
ghost use Rattle.st_tree.specs.Units.{IsReadable};
ghost use Rattle.sif_export.specs.ExportText.{export_text};
ghost use Rattle.st_checks.specs.StaticRules.{first_break, MeetsRules};
ghost use Rattle.st_shake.specs.Shaken.{shaken};
ghost use Rattle.st_words.specs.CommandLine.{IsInBounds};
ghost use Rattle.st_run.specs.Outcomes.{Outcome, done, refused, usage, OfTask};
ghost use Rattle.st_run.specs.Commands.{OfRules};
ghost use Rattle.st_run.specs.declared.status.Status.TheVariants as statuses;
ghost use Rattle.st_run.specs.Devices.{Device, device, Keeps};
ghost use Rattle.st_run.specs.Ends.{EndsBy, Finishes};

use crate::generating::generate;
use crate::report::{OUT_OF_MEMORY, USAGE, refusal};
use crate::running::run;
use crate::status::Status;
use crate::tracing::trace;
use sif_export::export;
use st_answers::{listing, ok_line};
use st_base::{OutOfMemory, Place, Reason, Sink, put_all};
use st_checks::{CheckAnswer, check};
use st_shake::shake;
use st_tree::units::Definition;
use st_words::{Command, Task};
use std::alloc::Global;

// Reports a line, and answers the status, or a write fault.
pub(crate) fn tell<E: Sink>(report: &mut E, line: &[u8], status: Status) -> Status
    ensures told { result ≢ statuses.WriteFault
        → (result ≡ status) × (E.written report.new ≡ append_known (E.written report.old) line.now) }
    ensures part { status ≢ statuses.WriteFault → result ≡ statuses.WriteFault
        → GainsPrefix (E.written report.old) (E.written report.new) line.now
        × Rose (E.faults report.old) (E.faults report.new) }
{
    match put_all(report, line) {
        Ok(()) => status,
        Err(_) => Status::WriteFault,
    }
}

/// Reports want of memory, and answers it, or a write fault where the report failed.
pub fn report_want_of_memory<E: Sink>(report: &mut E) -> Status
    ensures status { (result ≡ statuses.WriteFault) ⊎ (result ≡ statuses.OutOfMemory) }
    ensures finishes { (outcome : Outcome) (out : Device) → Keeps out → Finishes outcome out
        (device (E.written report.old) (E.faults report.old) (E.written report.new) (E.faults report.new)) result }
{
    tell(report, OUT_OF_MEMORY, Status::OutOfMemory)
}

/// Reports that the words are no command.
pub(crate) fn report_usage<E: Sink>(report: &mut E) -> Status
    ensures { (out : Device) → Keeps out → Finishes usage out
        (device (E.written report.old) (E.faults report.old) (E.written report.new) (E.faults report.new)) result }
{
    tell(report, USAGE, Status::Usage)
}

/// Reports a refusal.
pub(crate) fn refuse<E: Sink>(alloc: Global, place: Place, reason: Reason, report: &mut E) -> Status
    ensures { (out : Device) → Keeps out → Finishes (refused place reason) out
        (device (E.written report.old) (E.faults report.old) (E.written report.new) (E.faults report.new)) result }
{
    match refusal(alloc, place, reason) {
        Ok(line) => tell(report, line.as_slice(), Status::Refused),
        Err(_) => report_want_of_memory(report),
    }
}

// Writes the output, and answers that the command is done, or a write fault.
fn write_out<K: Sink>(out: &mut K, bytes: &[u8]) -> Status
    ensures { (report : Device) → Keeps report → Finishes (done bytes.now)
        (device (K.written out.old) (K.faults out.old) (K.written out.new) (K.faults out.new)) report result }
{
    match put_all(out, bytes) {
        Ok(()) => Status::Done,
        Err(_) => Status::WriteFault,
    }
}

// Writes the canonical text, and answers that the command is done, or a write fault.
fn write_text<K: Sink>(out: &mut K, definition: &Definition) -> Status
    ensures { (report : Device) → Keeps report → Finishes (done (export_text definition.now.units))
        (device (K.written out.old) (K.faults out.old) (K.written out.new) (K.faults out.new)) report result }
{
    match export(definition, out) {
        Ok(()) => Status::Done,
        Err(_) => Status::WriteFault,
    }
}

// Writes the canonical text of what is kept of a program that is shaken, and answers the status.
fn write_shaken<K: Sink, E: Sink>(
    alloc: Global,
    definition: &Definition,
    out: &mut K,
    report: &mut E,
) -> Status
    ensures { Finishes (done (export_text (shaken definition.now.units)))
        (device (K.written out.old) (K.faults out.old) (K.written out.new) (K.faults out.new))
        (device (E.written report.old) (E.faults report.old) (E.written report.new) (E.faults report.new)) result }
{
    match shake(alloc, definition) {
        Ok(smaller) => write_text(out, &smaller),
        Err(_) => report_want_of_memory(report),
    }
}

// Writes a text that is made, and answers the status.
pub(crate) fn write_made<K: Sink, E: Sink>(
    made: Result<Vec<u8>, OutOfMemory>,
    out: &mut K,
    report: &mut E,
) -> Status
    ensures { (text : List ℕ) → IfOk made (λ bytes. bytes.items ≡ text) → Finishes (done text)
        (device (K.written out.old) (K.faults out.old) (K.written out.new) (K.faults out.new))
        (device (E.written report.old) (E.faults report.old) (E.written report.new) (E.faults report.new)) result }
{
    match made {
        Ok(bytes) => write_out(out, bytes.as_slice()),
        Err(_) => report_want_of_memory(report),
    }
}

// Does a task with a program that meets the static rules, of a file of so many bytes.
fn perform<K: Sink, E: Sink>(
    alloc: Global,
    command: Command,
    bytes: usize,
    definition: Definition,
    out: &mut K,
    report: &mut E,
) -> Status
    requires readable { IsReadable definition.units }
    requires meets { MeetsRules definition.units }
    requires few { elements_in definition.units < 2 ^ 32 - 1 }
    requires bounds { IsInBounds command }
    ensures { EndsBy (OfTask command.task command definition.units bytes)
        (device (K.written out.old) (K.faults out.old) (K.written out.new) (K.faults out.new))
        (device (E.written report.old) (E.faults report.old) (E.written report.new) (E.faults report.new)) result }
{
    match command.task {
        Task::Run => run(alloc, command, definition, out, report),
        Task::Check => write_made(ok_line(alloc, &definition), out, report),
        Task::List => write_made(listing(alloc, definition.units.as_slice()), out, report),
        Task::Export => write_text(out, &definition),
        Task::Gen => generate(alloc, command, bytes, definition, out, report),
        Task::Trace => trace(alloc, command, definition, out, report),
        Task::Audit => write_out(out, b""),
        Task::Shake => write_shaken(alloc, &definition, out, report),
    }
}

/// Does a task with a program that was read, of a file of so many bytes, or reports its first break
/// of the static rules.
pub(crate) fn judge<K: Sink, E: Sink>(
    alloc: Global,
    command: Command,
    bytes: usize,
    definition: Definition,
    out: &mut K,
    report: &mut E,
) -> Status
    requires readable { IsReadable definition.units }
    requires few { elements_in definition.units < 2 ^ 32 - 1 }
    requires bounds { IsInBounds command }
    ensures { EndsBy (OfRules command definition.units bytes (first_break definition.units))
        (device (K.written out.old) (K.faults out.old) (K.written out.new) (K.faults out.new))
        (device (E.written report.old) (E.faults report.old) (E.written report.new) (E.faults report.new)) result }
{
    match check(alloc, definition) {
        CheckAnswer::Checked(checked) => {
            perform(
                alloc,
                command,
                bytes,
                checked.into_definition(),
                out,
                report,
            )
        }
        CheckAnswer::Refused(place, reason) => refuse(alloc, place, reason, report),
        CheckAnswer::OutOfMemory => report_want_of_memory(report),
    }
}
