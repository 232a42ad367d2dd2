// What is claimed of the numbers of objects and classes in each state.
ghost use Rattle.law_values.specs.CheckedFiles.{CheckedNumbersAreNamed};
ghost use Rattle.law_values.specs.KnownNumbers.{NumbersAreNamed, ProgramsKnowNumbers};

/// At each small step of the flat machine's run of a compiled program each number of an object and
/// of a class in hand names one: in objects' slots, scopes and closures, in variables and operands,
/// in what stands, and in what is sent, signalled or handed back. Each program that the units of a
/// file are has what this asks for, where no class of the file stands under OrderedCollection, Set or
/// Dictionary. So it holds in each state of the run of a file that meets the static rules.
pub fn each_number_is_named()
    ensures runs { NumbersAreNamed }
    ensures programs { ProgramsKnowNumbers }
    ensures files { CheckedNumbersAreNamed }
{}
