// What is claimed of each run.
ghost use Rattle.law_discipline.specs.Disciplines.{RunsAreAccepted, RunsAreDisciplined};

/// The lines of every program's run, whatever its limits are, are disciplined, and the auditor
/// accepts them.
pub fn each_run_is_disciplined()
    ensures runs { RunsAreDisciplined }
    ensures accepted { RunsAreAccepted }
{}
