// The codes of small programs.
ghost use Rattle.st_sizes.specs.ShortCodes.{CodesGrowWithBodies, SmallProgramsHaveShortCodes};

/// Where no body of a readable file has more than so many targets, messages, statements and primaries,
/// those of its blocks among them, each code has at most three times as many instructions and two more.
/// So each code of a small program has fewer than 2^22 instructions, whatever the numbers of its names
/// and the limits of its run are.
pub fn small_programs_have_short_codes()
    ensures growth { CodesGrowWithBodies }
    ensures small { SmallProgramsHaveShortCodes }
{}
