// Runs of shaken files.
ghost use Rattle.law_shake.specs.Laws.{OnlyNeededStands};
ghost use Rattle.law_shake.specs.RunsAlike.{ShakenFilesRunAlike};

/// A shaken file's run by the rules has the Transcript, the ending and the counts of the file's own, for
/// all limits, and the machine makes as many instructions of both.
pub fn a_shaken_file_runs_alike()
    ensures { ShakenFilesRunAlike }
{}

/// In no state that a run of a shaken file comes to stands a symbol or a selector that the file doesn't
/// need. Of a run of the whole file this isn't true: the literals of methods that are never sent stand
/// in each of its states.
pub fn only_needed_symbols_stand()
    ensures { OnlyNeededStands }
{}
