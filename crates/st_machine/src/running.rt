// How a caller runs a machine: small step by small step, with a watcher that is told of each event.
ghost use Rattle.std.specs.Prelude.{◌≡◌, None, OnOk, OnErr};
ghost use Rattle.st_base.specs.Streams.{HasCause};
ghost use Rattle.st_transcript.specs.Gained.{Gains};
ghost use Rattle.st_transcript.specs.Unhandled.{unhandled_text};
ghost use Rattle.st_machine.specs.Plans.{program_in};
ghost use Rattle.st_machine.specs.Steps.{advanced, advance_told, advance_written};
ghost use Rattle.st_machine.specs.Running.{listed, all_seen, BreaksOff, goes_on, left_after, sink_seen, watch_seen, Ran, progress_of, stats_of};

use crate::machine::Machine;
use crate::work::{Ending, Mode, Told};
use object_heap::{Heap, Value};
use st_base::{Failed, Sink};
use st_contexts::Watch;
use st_transcript::{put_unhandled, put_written};

/// How far a run has come.
#[derive(Clone, Copy, Debug, PartialEq, Eq)]
pub enum Progress {
    /// As many instructions were done as was asked.
    Running,
    Ended(Ending),
    /// What the run tells could not be told. The machine is spent.
    WriteFault,
}

/// What a run took so far.
#[derive(Clone, Copy, Debug, PartialEq, Eq)]
pub struct Stats {
    pub steps: u64,
    /// The greatest number of activations that stood at once.
    pub depth: u32,
    pub cells: u32,
    pub instructions: u64,
}

// Tells the events of a step, in their order.
fn tell<W: Watch>(watch: &mut W, told: Told) -> Result<(), Failed>
    requires { W.broken watch.old ≡ None }
    ensures all { OnOk result (W.seen watch.new ≡ all_seen (listed told) (W.seen watch.old)) }
    ensures whole { OnOk result (W.broken watch.new ≡ None) }
    ensures part { OnErr result (BreaksOff (listed told) (W.seen watch.old) (W.seen watch.new) (W.broken watch.new)) }
    ensures cause { HasCause (W.faults watch.old) (W.faults watch.new) result }
{
    match told {
        Told::Nothing => Ok(()),
        Told::One(event) => watch.event(event),
        Told::Two(first, second) => match watch.event(first) {
            Ok(()) => watch.event(second),
            Err(failed) => Err(failed),
        },
    }
}

/// Whether one more small step is made, with so many instructions left.
pub fn goes_on(mode: Mode, left: u64) -> bool
    ensures { result ≡ goes_on mode left }
{
    match mode {
        Mode::Run => left != 0,
        Mode::Ended(_) => false,
        _ => true,
    }
}

/// How many instructions are left behind a small step.
pub fn left_after(mode: Mode, left: u64) -> u64
    ensures { result ≡ left_after mode left }
{
    match mode {
        Mode::Run => left.saturating_sub(1),
        _ => left,
    }
}

impl<H: Heap> Machine<H> {
    /// A small step: what it writes goes to the sink, and the watcher is told its events.
    pub fn small_step<K: Sink, W: Watch>(
        &mut self,
        out: &mut K,
        watch: &mut W,
    ) -> Result<(), Failed>
        requires { W.broken watch.old ≡ None }
        ensures stepped { self.new ≡ advanced self.old }
        ensures ran { Ran (advance_written self.old) (listed (advance_told self.old)) (sink_seen (K.written out.old) (K.faults out.old)) (sink_seen (K.written out.new) (K.faults out.new)) (watch_seen (W.seen watch.old) (W.broken watch.old) (W.faults watch.old)) (watch_seen (W.seen watch.new) (W.broken watch.new) (W.faults watch.new)) result }
    {
        let telling = self.advance();
        put_written(&self.heap, &self.loaded, telling.written, out)?;
        tell(watch, telling.events)
    }

    /// How far the run has come, where nothing failed.
    pub fn progress(&self) -> Progress
        ensures { result ≡ progress_of self.now.mode }
    {
        match self.mode {
            Mode::Ended(ending) => Progress::Ended(ending),
            _ => Progress::Running,
        }
    }

    /// Writes the class and the text of the exception that ended the run.
    pub fn put_unhandled<K: Sink>(&self, exception: Value, report: &mut K) -> Result<(), Failed>
        ensures text { Gains (K.written report.old) (K.written report.new) result (unhandled_text (program_in self.now.plan) self.now.memory.store exception) }
        ensures cause { HasCause (K.faults report.old) (K.faults report.new) result }
    {
        put_unhandled(&self.heap, &self.loaded, exception, report)
    }

    /// What the run took so far.
    pub fn stats(&self) -> Stats
        ensures { result ≡ stats_of self.now }
    {
        Stats {
            steps: self.steps,
            depth: self.deepest,
            cells: self.heap.used(),
            instructions: self.instructions,
        }
    }
}
