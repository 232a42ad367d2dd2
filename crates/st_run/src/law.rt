// What is claimed of outcomes.
ghost use Rattle.st_run.specs.Commands.{OneOutcome, SomeOutcome};

/// Each command has one outcome for each input, and so have words that are no command: each file has
/// one reading, and each program one run.
pub fn each_command_has_one_outcome()
    ensures some { SomeOutcome }
    ensures one { OneOutcome }
{}
