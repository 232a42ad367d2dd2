// How a machine is run to its end, and what it tells is written as lines.
ghost use Rattle.std.specs.Prelude.{◌≡◌, IfOk, OnErr, OnOk};
ghost use Rattle.st_base.specs.Streams.{HasCause, Rose};
ghost use Rattle.st_machine.specs.declared.work.Mode.TheVariants.{Ended};
ghost use Rattle.st_machine.specs.Meaning.{ending_of, events_of};
ghost use Rattle.st_machine.specs.Plans.{program_in};
ghost use Rattle.st_machine.specs.Steps.{advanced, advance_told};
ghost use Rattle.st_runner.specs.Firsts.{IsFirst};
ghost use Rattle.st_trace.specs.Bytes.{line_text};
ghost use Rattle.st_trace.specs.Lines.{Stops};
ghost use Rattle.st_trace.specs.Told.{word_of};
ghost use Rattle.st_transcript.specs.Gained.{Gains};
ghost use Rattle.st_tracer.specs.Traced.{ended_in, events_text, TracesAs, StopsTracing};

use crate::lines::{put_stop, put_told};
use object_heap::Heap;
use st_base::{Failed, Sink};
use st_machine::{Ending, Machine, Progress};

// How the run has ended, where it has.
fn ended<H: Heap>(machine: &Machine<H>) -> Option<Ending>
    ensures { result ≡ ended_in machine.now.mode }
{
    match machine.progress() {
        Progress::Ended(ending) => Some(ending),
        _ => None,
    }
}

// A small step, whose events are written.
fn step<H: Heap, K: Sink>(machine: &mut Machine<H>, out: &mut K) -> Result<(), Failed>
    ensures stepped { machine.new ≡ advanced machine.old }
    ensures text { Gains (K.written out.old) (K.written out.new) result (events_text (events_of (advance_told machine.old))) }
    ensures cause { HasCause (K.faults out.old) (K.faults out.new) result }
{
    let telling = machine.advance();
    put_told(out, telling.events)
}

// The last line, and the ending.
fn finish<K: Sink>(out: &mut K, ending: Ending) -> Result<Ending, Failed>
    ensures same { IfOk result (λ e. e ≡ ending) }
    ensures text { Gains (K.written out.old) (K.written out.new) result (line_text (Stops (word_of (ending_of ending)))) }
    ensures cause { HasCause (K.faults out.old) (K.faults out.new) result }
{
    match put_stop(out, ending) {
        Ok(()) => Ok(ending),
        Err(failed) => Err(failed),
    }
}

/// Runs a machine that was opened to the end of its run, which is the run of the program by the
/// rules. The events of the run go to the sink as lines as they come, and last its stop. Where the
/// sink fails, it gained a prefix of that.
pub fn trace_to_end<H: Heap, K: Sink>(
    machine: &mut Machine<H>,
    out: &mut K,
) -> Result<Ending, Failed>
    requires { IsFirst machine.old }
    ensures traces { IfOk result (λ ending. TracesAs (program_in machine.old.plan) (ending_of ending) machine.new (K.written out.old) (K.written out.new)) }
    ensures mode { IfOk result (λ ending. machine.new.mode ≡ Ended ending) }
    ensures stops { OnErr result (StopsTracing (program_in machine.old.plan) (K.written out.old) (K.written out.new)) }
    ensures kept { OnOk result (K.faults out.new ≡ K.faults out.old) }
    ensures cause { OnErr result (Rose (K.faults out.old) (K.faults out.new)) }
{
    loop {
        match ended(machine) {
            Some(ending) => return finish(out, ending),
            None => match step(machine, out) {
                Ok(()) => {}
                Err(failed) => return Err(failed),
            },
        }
    }
}
