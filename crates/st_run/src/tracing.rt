// What `trace` does with a program: it runs, and its events are the output.
ghost use Rattle.std.specs.Prelude.{◌≡◌, ◌<◌, ◌-◌, ◌^◌, List};
ghost use Rattle.st_tree.specs.declared.units.Unit.{Unit};
ghost use Rattle.st_tree.specs.Numbers.{elements_in};
ghost use Rattle.st_tree.specs.Units.{IsReadable};
ghost use Rattle.st_checks.specs.StaticRules.{MeetsRules};
ghost use Rattle.st_words.specs.CommandLine.{IsInBounds};
ghost use Rattle.st_machine.specs.Plans.{program_in};
ghost use Rattle.st_run.specs.Devices.{device};
ghost use Rattle.st_run.specs.Outcomes.{program_for, trace_lines, IsOfRun};
ghost use Rattle.st_run.specs.Ends.{EndsBy};
ghost use Rattle.st_runner.specs.Firsts.{IsFirst};

use crate::finish::report_want_of_memory;
use crate::running::report_ending;
use crate::status::Status;
use cell_heap::CellHeap;
use st_base::Sink;
use st_machine::Machine;
use st_opening::open;
use st_tracer::trace_to_end;
use st_tree::units::Definition;
use st_words::Command;
use std::alloc::Global;

// Runs a machine, whose events are the output.
fn trace_machine<K: Sink, E: Sink>(
    mut machine: Machine<CellHeap>,
    command: Command,
    out: &mut K,
    report: &mut E,
) -> Status
    requires { IsFirst machine }
    ensures { (units : List Unit) → program_in machine.plan ≡ program_for command units
        → EndsBy (IsOfRun command units trace_lines)
        (device (K.written out.old) (K.faults out.old) (K.written out.new) (K.faults out.new))
        (device (E.written report.old) (E.faults report.old) (E.written report.new) (E.faults report.new)) result }
{
    match trace_to_end(&mut machine, out) {
        Ok(ending) => report_ending(&machine, command, ending, report),
        Err(_) => Status::WriteFault,
    }
}

/// Runs a program that meets the static rules, and writes its trace.
pub(crate) fn trace<K: Sink, E: Sink>(
    alloc: Global,
    command: Command,
    definition: Definition,
    out: &mut K,
    report: &mut E,
) -> Status
    requires readable { IsReadable definition.units }
    requires meets { MeetsRules definition.units }
    requires few { elements_in definition.units < 2 ^ 32 - 1 }
    requires bounds { IsInBounds command }
    ensures { EndsBy (IsOfRun command definition.units trace_lines)
        (device (K.written out.old) (K.faults out.old) (K.written out.new) (K.faults out.new))
        (device (E.written report.old) (E.faults report.old) (E.written report.new) (E.faults report.new)) result }
{
    match open(alloc, definition, command.limits) {
        Ok(machine) => trace_machine(machine, command, out, report),
        Err(_) => report_want_of_memory(report),
    }
}
