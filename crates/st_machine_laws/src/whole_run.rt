// A machine's run is the run of its program.
ghost use Rattle.st_machine_laws.specs.WholeRun.{RunsAsTheRules, WritesAsTheRules};

/// The run of a machine that was opened on a moderate program ends after so many small steps. Its
/// ending, what it wrote to the Transcript, the events that it told and its counts are those of the
/// program's run by the rules, and of the flat machine's, unless a send or a loop finds a store that
/// isn't sound for it. At each moment, what was written is where the Transcript of the run by the
/// rules begins.
pub fn a_machines_run_is_the_rules_run()
    ensures run { RunsAsTheRules }
    ensures written { WritesAsTheRules }
{}
