// Each turn comes to its end.
ghost use Rattle.st_rules.specs.TurnsEnd.{FlatMeasureFalls, FlatTurnsEnd, ScopedMeasureFalls, ScopedTurnsEnd};

/// Between two instructions a measure falls at each small step: the steps to the limit, and, while
/// they are as many, what is to be done until the next one, which counts what stands and the
/// entries that are searched. So after each instruction the next one comes, or the run ends, after
/// finitely many small steps. This holds in every state, also in those that no run comes to.
pub fn each_turn_comes_to_its_end()
    ensures scoped_falls { ScopedMeasureFalls }
    ensures scoped_ends { ScopedTurnsEnd }
    ensures flat_falls { FlatMeasureFalls }
    ensures flat_ends { FlatTurnsEnd }
{}
