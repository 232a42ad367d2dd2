// A program has at most one run.
ghost use Rattle.st_rules.specs.OneRun.{LargerKeeps, OneEnding, OneState};

/// The rules are stated at an index, and each use of a rule inside another takes a smaller one.
/// A larger index changes no outcome, so two runs of a program have the same ending, Transcript,
/// events and counts.
pub fn a_program_has_at_most_one_run()
    ensures larger { LargerKeeps }
    ensures ending { OneEnding }
    ensures state { OneState }
{}
