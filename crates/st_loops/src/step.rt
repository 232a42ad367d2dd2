// What a loop asks for next, or what it answers.
ghost use Rattle.std.specs.Prelude.{◌≡◌};
ghost use Rattle.st_loops.specs.Steps.{seen, stop_seen};

use crate::state::{Arguments, LoopState};
use object_heap::{HeapStop, Value};

/// What a loop asks for next, or what it answers.
#[derive(Clone, Copy, Debug, PartialEq, Eq)]
pub enum LoopStep {
    /// Applies a value to arguments. The loop goes on with what it gives.
    Apply {
        state: LoopState,
        block: Value,
        arguments: Arguments,
    },
    /// Sends `=`. The loop goes on with what it gives.
    Equal {
        state: LoopState,
        receiver: Value,
        argument: Value,
    },
    /// The loop's answer.
    Answer(Value),
    /// The trouble `not found` is signaled, while the loop stands. What the signal answers is what
    /// the loop goes on with.
    Lacking {
        state: LoopState,
    },
    /// The cells used and the cells that the loop takes next together pass the limit. A charge
    /// above 2^128 - 1 is told as 2^128 - 1.
    Cells {
        used: u32,
        charge: u128,
    },
    /// The heap wanted memory. Nothing changed, but that `collect:`, `select:` and `reject:` may
    /// have taken the first of two charges.
    OutOfMemory,
}

/// What a heap that made nothing tells.
pub fn step_stop(stop: HeapStop) -> LoopStep
    ensures { seen result ≡ stop_seen stop }
{
    match stop {
        HeapStop::Limit { used, charge } => LoopStep::Cells { used, charge },
        HeapStop::OutOfMemory => LoopStep::OutOfMemory,
    }
}
