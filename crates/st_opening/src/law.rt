// What holds of every machine that is opened.
ghost use Rattle.std.specs.Prelude.{List};
ghost use Rattle.st_base.specs.declared.faults.Limits.{Limits};
ghost use Rattle.st_tree.specs.declared.units.Unit.{Unit};
ghost use Rattle.st_opening.specs.Opened.{IsOpened};

/// A machine that is opened is ready for its first step, and stands for the flat machine at the
/// beginning of the program's run.
pub fn an_opened_machine_is_ready()
    ensures { (units : List Unit) (limits : Limits) → IsOpened units limits }
{}
