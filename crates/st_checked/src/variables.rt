// Units that meet the static rules make a program that knows its variables.
ghost use Rattle.st_checked.specs.CheckedVariables.{CheckedObjectsAreFull, CheckedProgramsKnowVariables, CheckedUnitsAssign, CheckedVariablesStand};

/// In units that break no static rule each name that is assigned to stands for a variable, and no
/// class lies over a built-in class that may not be extended. So the program that they are knows its
/// variables, and at each small step of its run, whatever its limits are, the variable that the next
/// instruction reads or writes stands, and each object of a class of the file has the slots that its
/// class names.
pub fn checked_units_know_their_variables()
    ensures assigned { CheckedUnitsAssign }
    ensures known { CheckedProgramsKnowVariables }
    ensures variables { CheckedVariablesStand }
    ensures objects { CheckedObjectsAreFull }
{}
