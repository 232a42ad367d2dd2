// A program has a run.
ghost use Rattle.st_rules.specs.SomeRun.{RulesEnd, FollowedByTheRules, MachineEnds};

/// The rules end every program, whatever its limits are, and so does the machine that keeps every
/// scope. Where the machine ends a program, the rules end it alike: with the same ending,
/// Transcript, events, counts and objects.
pub fn a_program_has_a_run()
    ensures rules { RulesEnd }
    ensures followed { FollowedByTheRules }
    ensures machine { MachineEnds }
{}
