// No run is stuck.
ghost use Rattle.st_rules.specs.NeverStuck.{RulesNeverStuck, MachineNeverStuck};

/// The target of every unwinding stands, or the unwinding ends the program. So each run is done,
/// ends with an exception that nothing handled, or ends at a limit, by the rules and on the machine
/// that keeps every scope.
pub fn a_run_is_never_stuck()
    ensures rules { RulesNeverStuck }
    ensures machine { MachineNeverStuck }
{}
