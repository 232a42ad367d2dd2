// Every unwinding finds its target.
ghost use Rattle.st_rules.specs.Unwindings.{ScopedTargetsStand, FlatTargetsStand};
ghost use Rattle.st_rules.specs.Watched.{RulesTargetsStand};

/// At each small step of a run, the target of an unwinding that is in hand is among what stands, or
/// it is the end of the program: the body of a return, the `on:do:` of a handler's value or of a
/// retry, the signal or outer point of a resumption, the signal in whose place another exception is
/// signaled. So it is on the machine that keeps every scope, whose small steps are the uses of the
/// rules, and on the flat one, of compiled programs; and by the rules, since others that give up at
/// each unwinding whose target doesn't stand end each program as they do.
pub fn every_unwinding_finds_its_target()
    ensures rules { RulesTargetsStand }
    ensures scoped { ScopedTargetsStand }
    ensures flat { FlatTargetsStand }
{}
