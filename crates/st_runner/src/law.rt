// What holds of every machine that is opened on a program that may run.
ghost use Rattle.st_runner.specs.Firsts.{OpensFirst};

/// A machine that is opened on units that are read and meet the static rules, with a step limit of
/// at most 10^12, can make its whole run: it is ready, no store will be unsound for a send or a
/// loop, and its instructions can be counted.
pub fn an_opened_machine_is_first()
    ensures { OpensFirst }
{}
