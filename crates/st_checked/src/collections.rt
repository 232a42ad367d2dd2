// The classes of a file that meets the static rules.
ghost use Rattle.st_checked.specs.CheckedUnits.{CheckedClassesExtend, CheckedClassesStandWell};

/// Where the units of a file meet the static rules, each class of the file stands under Object, an
/// exception class or an earlier class of the file, so none stands under OrderedCollection, Set or
/// Dictionary.
pub fn checked_programs_keep_their_collections()
    ensures superclasses { CheckedClassesStandWell }
    ensures collections { CheckedClassesExtend }
{}
