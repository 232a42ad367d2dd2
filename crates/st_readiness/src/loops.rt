// Loops in a sound store.
ghost use Rattle.st_readiness.specs.Readiness.{LoopsGoOn, LoopsMayBegin};

/// In a sound store a loop that stands well may begin: its receiver has less than 2^127 elements,
/// and what it changes is a collection as it stands. It may go on with the collection that it makes
/// or the count that it keeps.
pub fn loops_that_stand_go_on()
    ensures begin { LoopsMayBegin }
    ensures on { LoopsGoOn }
{}
