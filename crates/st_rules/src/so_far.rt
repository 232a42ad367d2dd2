// What a machine has written by a moment.
ghost use Rattle.st_rules.specs.SoFar.{FlatSoFar, ScopedSoFar};

/// After any number of small steps, and so of turns, what a machine has written is where the run's
/// Transcript begins.
pub fn what_is_written_stays_written()
    ensures scoped { ScopedSoFar }
    ensures flat { FlatSoFar }
{}
