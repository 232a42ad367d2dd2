// What the machine does is what the flat machine does.
ghost use Rattle.st_machine.specs.Followed.{FollowsTheFlat};

/// A step of the machine is some small steps of the flat machine: what stands, the heap, the
/// variables and all counts are then as the flat machine has them, and the same events were told.
pub fn a_step_follows_the_flat_machine()
    ensures { FollowsTheFlat }
{}
