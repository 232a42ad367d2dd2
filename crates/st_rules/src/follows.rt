// The machine does what the rules say.
ghost use Rattle.st_rules.specs.Followed.{FollowsTheRules};

/// Where the rules end a program, the machine that keeps every scope ends it alike: with the same
/// ending, Transcript, events, counts and objects.
pub fn the_machine_follows_the_rules()
    ensures { FollowsTheRules }
{}
