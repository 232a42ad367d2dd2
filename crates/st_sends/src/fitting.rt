// Programs whose code sends with as many arguments as selectors take.
ghost use Rattle.st_sends.specs.Fitting.{ProgramsKnowSelectors};

/// The program that the units of a file are sends with as many arguments as selectors take, where
/// each message in the units has as many.
pub fn programs_know_their_selectors()
    ensures { ProgramsKnowSelectors }
{}
