// How a machine is run to its end.
ghost use Rattle.std.specs.Prelude.{◌≡◌, IfOk, OnErr, OnOk};
ghost use Rattle.st_base.specs.Streams.{Rose};
ghost use Rattle.st_machine.specs.declared.work.Mode.TheVariants.{Ended};
ghost use Rattle.st_machine.specs.Meaning.{ending_of};
ghost use Rattle.st_machine.specs.Plans.{program_in};
ghost use Rattle.st_runner.specs.Firsts.{IsFirst};
ghost use Rattle.st_runner.specs.RunToEnd.{EndsAs, StopsAs};

use object_heap::Heap;
use st_base::{Failed, Sink};
use st_machine::{Ending, Machine, Progress};
use st_sprint::go;

/// Runs a machine that was opened to the end of its run, which is the run of the program by the
/// rules: with its ending, its Transcript, its counts and its objects. What the run writes to the
/// Transcript goes to the sink as it comes. Where the sink fails, it gained a prefix of that.
pub fn run_to_end<H: Heap, K: Sink>(machine: &mut Machine<H>, out: &mut K) -> Result<Ending, Failed>
    requires { IsFirst machine.old }
    ensures ends { IfOk result (λ ending. EndsAs (program_in machine.old.plan) (ending_of ending) machine.new (K.written out.old) (K.written out.new)) }
    ensures mode { IfOk result (λ ending. machine.new.mode ≡ Ended ending) }
    ensures stops { OnErr result (StopsAs (program_in machine.old.plan) (K.written out.old) (K.written out.new)) }
    ensures kept { OnOk result (K.faults out.new ≡ K.faults out.old) }
    ensures cause { OnErr result (Rose (K.faults out.old) (K.faults out.new)) }
{
    loop {
        match go(machine, u64::MAX, out) {
            Progress::Ended(ending) => return Ok(ending),
            Progress::WriteFault => return Err(Failed),
            Progress::Running => {}
        }
    }
}
