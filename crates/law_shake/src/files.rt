// Shaken files as files.
ghost use Rattle.law_shake.specs.Laws.{NeededIsLeast, ShakenFilesAreReadable, ShakenFilesMeetTheRules, ShakingTwiceIsShakingOnce};

/// What a file needs is the least set of selectors that has those that are always needed, those that
/// initializers send or have as symbols, and those of each method whose selector is in it.
pub fn needed_is_the_least_set()
    ensures { NeededIsLeast }
{}

/// Some text reads as the units of a shaken file, where one reads as those of the file.
pub fn a_shaken_file_is_readable()
    ensures { ShakenFilesAreReadable }
{}

/// A shaken file breaks no static rule, where the file breaks none.
pub fn a_shaken_file_meets_the_rules()
    ensures { ShakenFilesMeetTheRules }
{}

pub fn shaking_twice_is_shaking_once()
    ensures { ShakingTwiceIsShakingOnce }
{}
