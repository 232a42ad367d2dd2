// What `run` does with a program, and how the end of a run is reported.
ghost use Rattle.std.specs.Prelude.{◌≡◌, ◌≢◌, ◌<◌, ◌-◌, ◌^◌, List, IfSome};
ghost use Rattle.std.specs.Io.KnownBytes.{append_known};
ghost use Rattle.st_base.specs.Streams.{GainsPrefix, HasCause, Rose};
ghost use Rattle.st_tree.specs.declared.units.Unit.{Unit};
ghost use Rattle.st_tree.specs.Numbers.{elements_in};
ghost use Rattle.st_tree.specs.Units.{IsReadable};
ghost use Rattle.st_checks.specs.StaticRules.{MeetsRules};
ghost use Rattle.st_words.specs.CommandLine.{IsInBounds};
ghost use Rattle.st_machine.specs.Meaning.{ending_of};
ghost use Rattle.st_machine.specs.Plans.{program_in};
ghost use Rattle.st_transcript.specs.Gained.{Gains};
ghost use Rattle.st_run.specs.Reports.{stats_if};
ghost use Rattle.st_run.specs.Outcomes.{ending_status, program_for, transcript, IsOfRun};
ghost use Rattle.st_run.specs.declared.status.Status.TheVariants.{WriteFault};
ghost use Rattle.st_run.specs.Statuses.{IsEnding};
ghost use Rattle.st_run.specs.Devices.{device};
ghost use Rattle.st_run.specs.Ends.{EndsBy};
ghost use Rattle.st_run.specs.Told.{ending_report};
ghost use Rattle.st_runner.specs.Firsts.{IsFirst};

use crate::finish::report_want_of_memory;
use crate::report::{put_ending, put_stats};
use crate::status::Status;
use cell_heap::CellHeap;
use st_base::{Failed, Sink};
use st_machine::{Ending, Machine};
use st_opening::open;
use st_runner::run_to_end;
use st_tree::units::Definition;
use st_words::Command;
use std::alloc::Global;

// The status of a run that ended so. None ends as `Stranded`.
fn status_of(ending: Ending) -> Status
    ensures answered { IfSome (ending_status (ending_of ending)) (λ status. result ≡ status) }
    ensures ending { IsEnding result }
{
    match ending {
        Ending::Done => Status::Done,
        Ending::Unhandled { .. } | Ending::Stranded => Status::Unhandled,
        Ending::Steps => Status::StepLimit,
        Ending::Depth => Status::DepthLimit,
        Ending::Cells => Status::CellLimit,
        Ending::Integer => Status::IntegerLimit,
    }
}

// Reports the statistics of a run, where they are asked for.
fn put_stats_if<E: Sink>(
    machine: &Machine<CellHeap>,
    wanted: bool,
    report: &mut E,
) -> Result<(), Failed>
    ensures text { Gains (E.written report.old) (E.written report.new) result
        (stats_if wanted machine.now.steps machine.now.deepest machine.now.memory.used machine.now.instructions) }
    ensures cause { HasCause (E.faults report.old) (E.faults report.new) result }
{
    if wanted {
        return put_stats(machine.stats(), report);
    }
    Ok(())
}

// Reports what there is to report of a run that ended so.
fn put_report<E: Sink>(
    machine: &Machine<CellHeap>,
    command: Command,
    ending: Ending,
    report: &mut E,
) -> Result<(), Failed>
    ensures text { Gains (E.written report.old) (E.written report.new) result
        (ending_report command machine.now ending) }
    ensures cause { HasCause (E.faults report.old) (E.faults report.new) result }
{
    put_stats_if(machine, command.stats, report)?;
    put_ending(machine, command.limits, ending, report)
}

/// Reports the end of a run whose output is written, and answers the status.
pub(crate) fn report_ending<E: Sink>(
    machine: &Machine<CellHeap>,
    command: Command,
    ending: Ending,
    report: &mut E,
) -> Status
    ensures told { result ≢ WriteFault → IsEnding result
        × IfSome (ending_status (ending_of ending)) (λ status. result ≡ status)
        × (E.written report.new ≡ append_known (E.written report.old) (ending_report command machine.now ending)) }
    ensures part { result ≡ WriteFault
        → GainsPrefix (E.written report.old) (E.written report.new) (ending_report command machine.now ending)
        × Rose (E.faults report.old) (E.faults report.new) }
{
    match put_report(machine, command, ending, report) {
        Ok(()) => status_of(ending),
        Err(_) => Status::WriteFault,
    }
}

// Runs a machine, whose Transcript is the output.
fn run_machine<K: Sink, E: Sink>(
    mut machine: Machine<CellHeap>,
    command: Command,
    out: &mut K,
    report: &mut E,
) -> Status
    requires { IsFirst machine }
    ensures { (units : List Unit) → program_in machine.plan ≡ program_for command units
        → EndsBy (IsOfRun command units transcript)
        (device (K.written out.old) (K.faults out.old) (K.written out.new) (K.faults out.new))
        (device (E.written report.old) (E.faults report.old) (E.written report.new) (E.faults report.new)) result }
{
    match run_to_end(&mut machine, out) {
        Ok(ending) => report_ending(&machine, command, ending, report),
        Err(_) => Status::WriteFault,
    }
}

/// Runs a program that meets the static rules.
pub(crate) fn run<K: Sink, E: Sink>(
    alloc: Global,
    command: Command,
    definition: Definition,
    out: &mut K,
    report: &mut E,
) -> Status
    requires readable { IsReadable definition.units }
    requires meets { MeetsRules definition.units }
    requires few { elements_in definition.units < 2 ^ 32 - 1 }
    requires bounds { IsInBounds command }
    ensures { EndsBy (IsOfRun command definition.units transcript)
        (device (K.written out.old) (K.faults out.old) (K.written out.new) (K.faults out.new))
        (device (E.written report.old) (E.faults report.old) (E.written report.new) (E.faults report.new)) result }
{
    match open(alloc, definition, command.limits) {
        Ok(machine) => run_machine(machine, command, out, report),
        Err(_) => report_want_of_memory(report),
    }
}
