// What is claimed of the objects of each state.
ghost use Rattle.law_values.specs.BuiltRun.{ObjectsAreBuilt};
ghost use Rattle.law_values.specs.CheckedFiles.{CheckedObjectsAreBuilt};
ghost use Rattle.law_values.specs.KnownBuilt.{ProgramsKnowBuilt};

/// At each small step of the flat machine's run of a compiled program each object is of a class that
/// is there, and built as that says: a Fraction in lowest terms, with a denominator of at least 2; an
/// Interval of two ends and a step other than 0; a Message of a selector and an Array; an Association
/// and an exception of a built-in class of as many slots as its class has; a Block with a closure that
/// stands, which no other object has. Each program that the units of a file are has what this asks
/// for, where no class of the file stands under OrderedCollection, Set or Dictionary. So it holds in
/// each state of the run of a file that meets the static rules.
pub fn each_object_is_built()
    ensures runs { ObjectsAreBuilt }
    ensures programs { ProgramsKnowBuilt }
    ensures files { CheckedObjectsAreBuilt }
{}
