// The programs of checked files have what each_variable_stands asks for.
ghost use Rattle.st_variables.specs.Assigned.{ProgramsKnowVariables};

/// Each program that the units of a file are knows its variables, where each name that a unit
/// assigns to stands for a variable, and no class lies over a built-in class whose slots are its
/// elements. The static rules say both: a name that stands for no variable is not assignable, and
/// the superclass of a class is Object, an exception class or a class of the file.
pub fn programs_know_their_variables()
    ensures { ProgramsKnowVariables }
{}
