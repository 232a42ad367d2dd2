// A run makes boundedly many instructions.
ghost use Rattle.st_rules.specs.Instructions.{FewInARun, FewInstructions};

/// Code has no jumps, and each activation but those of the initializers costs a step. So the flat
/// machine makes at most as many instructions, at each moment of a run of a compiled program, as
/// the step limit with the number of initializers, times the length of the longest code.
pub fn a_run_makes_boundedly_many_instructions()
    ensures so_far { FewInstructions }
    ensures whole { FewInARun }
{}
