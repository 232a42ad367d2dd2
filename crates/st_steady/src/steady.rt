// A machine never strands.
ghost use Rattle.st_steady.specs.Steady.{EndsSo, NeverStrands};

/// A machine that was opened on a program whose collections stay sound, whose sends have as many
/// arguments as their selectors take, and whose selectors take no more than there is room for, finds
/// each store sound for each send and each visit of a loop, at each moment of its run. So it never
/// ends stranded, and as it ends, the rules end the program, with the same Transcript, events and
/// counts.
pub fn a_steady_machine_never_strands()
    ensures never { NeverStrands }
    ensures ends { EndsSo }
{}
