// A machine stays ready.
ghost use Rattle.st_machine_laws.specs.StaysReady.{HoldsFirst, MakesReady, StaysSo};

/// A machine that is ready at the beginning of a moderate program is ready at each moment of its
/// run: links name what stands, each body has its next instruction, and the numbers of activations
/// don't run out, since at most three come to stand for each step and one for each initializer.
pub fn a_machine_stays_ready()
    ensures first { HoldsFirst }
    ensures stays { StaysSo }
    ensures ready { MakesReady }
{}
