// A larger step limit only extends the Transcript.
ghost use Rattle.st_rules.specs.StepLimits.{Extends, KeepsOthers};

/// Of two runs of a program whose limits differ in steps alone, the Transcript of the one with the
/// larger limit begins with that of the other. A run that the step limit didn't end is the same
/// under each larger one: with the same ending, Transcript, events, counts and objects.
pub fn a_larger_step_limit_only_extends_the_transcript()
    ensures transcript { Extends }
    ensures others { KeepsOthers }
{}
