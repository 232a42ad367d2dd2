// The messages of units that are read.
ghost use Rattle.st_parsed.specs.ReadUnits.{ReadUnitsFit};

/// In the units that the texts of a file are, each message has as many arguments as its selector
/// takes, and a cascade stands behind a message.
pub fn read_units_fit_their_selectors()
    ensures { ReadUnitsFit }
{}
