// An unwinding, up to the next termination block.
ghost use Rattle.std.specs.Prelude.{◌≡◌};
ghost use Rattle.st_contexts.specs.Stack.{with_acts};
ghost use Rattle.unwind.specs.Unwinding.{action_of, unwound, unwound_answer};

use object_heap::Value;
use st_contexts::{Activation, Contexts, Env, Outcome};

/// How far an unwinding came.
#[derive(Clone, Copy, Debug, PartialEq, Eq)]
pub enum Unwound {
    /// The target is the innermost activation; nothing stands where there is no target.
    Reached,
    /// This termination block is to run in this environment. It was taken off its `ensure:` or
    /// `ifCurtailed:`, which is the innermost activation and holds what is done after it.
    Termination { block: Value, env: Env },
}

/// Drops activations from the innermost outwards (section 5.5), down to the target or to the first
/// `ensure:` or `ifCurtailed:` outside which the target is and whose termination block is still to
/// run. A target that doesn't stand, as 0, is the outside of all activations.
pub fn unwind_to(contexts: &mut Contexts, target: u64, held: Outcome) -> Unwound
    ensures contexts { contexts.new ≡ with_acts contexts.old (unwound target held contexts.old.acts) }
    ensures answer { result ≡ unwound_answer target contexts.old.acts }
{
    while let Some(innermost) = contexts.numbered(0) {
        if innermost.number == target {
            return Unwound::Reached;
        }
        if let Some(block) = action_of(innermost.kept) {
            contexts.keep(Activation::ActionOff { held });
            return Unwound::Termination {
                block,
                env: innermost.env,
            };
        }
        contexts.pop();
    }
    Unwound::Reached
}

// The termination block of an activation, if it is still to run.
fn action_of(kept: Activation) -> Option<Value>
    ensures { result ≡ action_of kept }
{
    match kept {
        Activation::EnsureOn { block } => Some(block),
        Activation::CurtailOn { block } => Some(block),
        _ => None,
    }
}
