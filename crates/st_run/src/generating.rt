// What `gen` does with a program: it runs, and a line says what came of it.
ghost use Rattle.std.specs.Prelude.{◌≡◌, ◌<◌, ◌-◌, ◌^◌, ℕ, List, length, IfOk};
ghost use Rattle.st_tree.specs.declared.units.Unit.{Unit};
ghost use Rattle.st_tree.specs.Numbers.{elements_in};
ghost use Rattle.st_tree.specs.Units.{IsReadable};
ghost use Rattle.st_checks.specs.StaticRules.{MeetsRules};
ghost use Rattle.st_words.specs.CommandLine.{IsInBounds};
ghost use Rattle.st_machine.specs.Meaning.{ending_of};
ghost use Rattle.st_machine.specs.Plans.{program_in};
ghost use Rattle.st_run.specs.Outcomes.{line_of, program_for, summary, IsOfRun};
ghost use Rattle.st_run.specs.Devices.{device};
ghost use Rattle.st_run.specs.Ends.{EndsBy};
ghost use Rattle.st_run.specs.Told.{HasEnded};
ghost use Rattle.st_runner.specs.Firsts.{IsFirst};

use crate::finish::report_want_of_memory;
use crate::running::report_ending;
use crate::status::Status;
use cell_heap::CellHeap;
use st_base::{OutOfMemory, Sink, put_all};
use st_gen::{Kept, gen_line};
use st_machine::{Ending, Machine};
use st_opening::open;
use st_runner::run_to_end;
use st_tree::units::Definition;
use st_words::Command;
use std::alloc::Global;

/// How many units and bytes a file has.
#[derive(Clone, Copy)]
pub(crate) struct Size {
    pub(crate) units: usize,
    pub(crate) bytes: usize,
}

// The line of a run that is done, and nothing of any other.
fn summary(
    alloc: Global,
    machine: &Machine<CellHeap>,
    ending: Ending,
    size: Size,
    transcript: usize,
) -> Result<Vec<u8>, OutOfMemory>
    ensures { IfOk result (λ line.
        line.items ≡ line_of size.units size.bytes transcript machine.now.steps (ending_of ending)) }
{
    match ending {
        Ending::Done => gen_line(
            alloc,
            size.units,
            size.bytes,
            transcript,
            machine.stats().steps,
        ),
        _ => Ok(Vec::new(alloc)),
    }
}

// Writes the line of a run, and reports its end.
fn write_summary<K: Sink, E: Sink>(
    machine: &Machine<CellHeap>,
    command: Command,
    ending: Ending,
    line: &[u8],
    out: &mut K,
    report: &mut E,
) -> Status
    ensures { (units : List Unit) (bytes transcript : ℕ) → HasEnded command units machine.now ending transcript
        → line.now ≡ line_of (length units) bytes transcript machine.now.steps (ending_of ending)
        → EndsBy (IsOfRun command units (summary units bytes))
        (device (K.written out.old) (K.faults out.old) (K.written out.new) (K.faults out.new))
        (device (E.written report.old) (E.faults report.old) (E.written report.new) (E.faults report.new)) result }
{
    match put_all(out, line) {
        Ok(()) => report_ending(machine, command, ending, report),
        Err(_) => Status::WriteFault,
    }
}

// Tells what came of a run whose Transcript was kept.
fn summarize<K: Sink, E: Sink>(
    alloc: Global,
    machine: &Machine<CellHeap>,
    command: Command,
    ending: Ending,
    size: Size,
    transcript: usize,
    out: &mut K,
    report: &mut E,
) -> Status
    ensures { (units : List Unit) → size.units ≡ length units → HasEnded command units machine.now ending transcript
        → EndsBy (IsOfRun command units (summary units size.bytes))
        (device (K.written out.old) (K.faults out.old) (K.written out.new) (K.faults out.new))
        (device (E.written report.old) (E.faults report.old) (E.written report.new) (E.faults report.new)) result }
{
    match summary(alloc, machine, ending, size, transcript) {
        Ok(line) => write_summary(machine, command, ending, line.as_slice(), out, report),
        Err(_) => report_want_of_memory(report),
    }
}

// Runs a machine, and keeps its Transcript.
fn run_kept<K: Sink, E: Sink>(
    alloc: Global,
    mut machine: Machine<CellHeap>,
    command: Command,
    size: Size,
    out: &mut K,
    report: &mut E,
) -> Status
    requires { IsFirst machine }
    ensures { (units : List Unit) → size.units ≡ length units → program_in machine.plan ≡ program_for command units
        → EndsBy (IsOfRun command units (summary units size.bytes))
        (device (K.written out.old) (K.faults out.old) (K.written out.new) (K.faults out.new))
        (device (E.written report.old) (E.faults report.old) (E.written report.new) (E.faults report.new)) result }
{
    let mut kept = Kept::new(alloc);
    match run_to_end(&mut machine, &mut kept) {
        Ok(ending) => {
            summarize(
                alloc,
                &machine,
                command,
                ending,
                size,
                kept.count(),
                out,
                report,
            )
        }
        Err(_) => report_want_of_memory(report),
    }
}

/// Runs a program that meets the static rules, of a file of so many bytes.
pub(crate) fn generate<K: Sink, E: Sink>(
    alloc: Global,
    command: Command,
    bytes: usize,
    definition: Definition,
    out: &mut K,
    report: &mut E,
) -> Status
    requires readable { IsReadable definition.units }
    requires meets { MeetsRules definition.units }
    requires few { elements_in definition.units < 2 ^ 32 - 1 }
    requires bounds { IsInBounds command }
    ensures { EndsBy (IsOfRun command definition.units (summary definition.units bytes))
        (device (K.written out.old) (K.faults out.old) (K.written out.new) (K.faults out.new))
        (device (E.written report.old) (E.faults report.old) (E.written report.new) (E.faults report.new)) result }
{
    let size = Size {
        units: definition.units.len(),
        bytes,
    };
    match open(alloc, definition, command.limits) {
        Ok(machine) => run_kept(alloc, machine, command, size, out, report),
        Err(_) => report_want_of_memory(report),
    }
}
