// What is claimed of turns.
ghost use Rattle.law_turns.specs.Laws.{OneStateAlways, SomeStateAlways, TurnsAlwaysJoin};

/// From each state of the flat machine so many turns, or fewer and the end of the run, lead to a
/// state, and to one only. Turns join.
pub fn so_many_turns_lead_to_one_state()
    ensures some { SomeStateAlways }
    ensures one { OneStateAlways }
    ensures join { TurnsAlwaysJoin }
{}
