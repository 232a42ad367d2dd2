// The run of a compiled program is the run that the rules give it.
ghost use Rattle.st_rules.specs.SameRun.{FlatRunIsTheRulesRun};

/// For each program that the units of a file are, and all limits, the flat machine's run of its
/// code is the run by the rules: it ends where they end it and they where it does, with the same
/// ending, Transcript, events, counts and objects.
pub fn the_flat_run_is_the_rules_run()
    ensures { FlatRunIsTheRulesRun }
{}
