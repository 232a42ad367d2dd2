// Each variable that compiled code names stands.
ghost use Rattle.st_variables.specs.VariablesStand.{EachObjectIsFull, EachVariableStands};

/// At each small step of the flat machine's run of a compiled program, the variable that the next
/// instruction reads or writes stands: one of the body's own, of a scope, a named slot of self, a
/// class instance variable of self, which is a class, or one of the program's. And each object of a
/// class of the file has at least the slots that its class names, whatever messages were sent to it.
pub fn each_variable_stands()
    ensures variables { EachVariableStands }
    ensures objects { EachObjectIsFull }
{}
