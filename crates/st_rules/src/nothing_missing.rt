// On compiled code nothing is missing.
ghost use Rattle.st_rules.specs.NothingMissing.{ActivationsHave, InstructionsHave, ValuesHave};
ghost use Rattle.st_rules.specs.Objects.{ObjectsStand, ProgramsKnowLiterals, ProgramsKnowShared, SharedStands};
ghost use Rattle.st_rules.specs.Selves.{ProgramsKnowClasses, SelvesFit};

/// At each small step of the flat machine's run of a compiled program, what is named and taken is
/// there, so no default is taken for it: the position names an instruction, whose operands stand
/// above the body's own variables, with room for what it pushes; the scopes that it walks and the
/// variables of its own and in them; the code of a block that it makes; room for a value that
/// reaches a body; the code and scope of what is activated; the variables of the program; and the
/// object of each number in hand, be it an operand, a variable, a slot, or kept by what stands. Self
/// is an instance of the class that a body is written in, or of one under it, in each body that runs
/// or stands. Each program that the units of a file are has what this asks for: the literals that it
/// names, its classes in order, and the variables that it names unless it has none at all. Of slots
/// and class instance variables of self st_variables says the same.
pub fn on_compiled_code_nothing_is_missing()
    ensures instructions { InstructionsHave }
    ensures values { ValuesHave }
    ensures activations { ActivationsHave }
    ensures shared { SharedStands }
    ensures shared_programs { ProgramsKnowShared }
    ensures objects { ObjectsStand }
    ensures object_programs { ProgramsKnowLiterals }
    ensures selves { SelvesFit }
    ensures self_programs { ProgramsKnowClasses }
{}
