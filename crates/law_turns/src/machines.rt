// What is claimed of calls of `go`.
ghost use Rattle.law_turns.specs.Calls.{EachBegins, GoesByTurns, SomeStepsAreEnough};

/// An opened machine stands for the flat machine at the beginning of its run. A call of `go` for so
/// many turns leads to what the flat machine is after so many, or after fewer and the end of the
/// run, wherever the run has come to, and writes and tells what they do; so calls in a row join.
/// That holds of each call that isn't cut off by its count of small steps, and for every machine
/// on its way and every number of turns so many small steps are enough.
pub fn a_machine_goes_by_turns()
    ensures begins { EachBegins }
    ensures goes { GoesByTurns }
    ensures enough { SomeStepsAreEnough }
{}
