// The flat machine does what the scoped one does, and what the rules say.
ghost use Rattle.st_rules.specs.Compilable.{Computed, ProgramsAreCompilable};
ghost use Rattle.st_rules.specs.Flattened.{FlatFollows, FlatFollowsTheRules, RulesFollowTheFlat};

/// Where the machine that keeps every scope ends a program that is compiled, the flat machine ends
/// it alike after as many small steps and instructions: with the same ending, Transcript, events,
/// counts and objects. It keeps a scope only where variables are captured and the others on its
/// operands, and the position of the next instruction in place of the code that is left. So the
/// flat machine ends such a program where the rules do, and alike. Each program that the units of a
/// file are is so; for any other `is_compilable` computes it.
pub fn the_flat_machine_follows_the_scoped_one()
    ensures scoped { FlatFollows }
    ensures rules { FlatFollowsTheRules }
    ensures flat { RulesFollowTheFlat }
    ensures programs { ProgramsAreCompilable }
    ensures computed { Computed }
{}
