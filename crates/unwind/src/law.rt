// No unwinding loses a termination block, and none hands one back twice.
ghost use Rattle.std.specs.Prelude.{List};
ghost use Rattle.st_contexts.specs.Stack.{Standing};
ghost use Rattle.unwind.specs.Once.{Unwinding, EachActionOnce};

/// Over any unwindings in a row, each termination block that was to run is handed back once, in the
/// order from the innermost outwards, or is still to run.
#[tactic(auto, using(crate::proofs::Once::each_action_once))]
pub fn each_action_is_handed_back_once()
    ensures { (unwindings : List Unwinding) (acts : List Standing) → EachActionOnce unwindings acts }
{}
