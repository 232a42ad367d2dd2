// What a message answers at once.
ghost use Rattle.std.specs.Prelude.{◌≡◌};
ghost use Rattle.st_collections.specs.Actions.{boolean};
ghost use Rattle.st_collections.specs.Answers.{stop_answer};
ghost use Rattle.st_collections.specs.declared.answer.Built.{Built};

use object_heap::{HeapStop, Trouble, Value};

/// What a message answers at once.
#[derive(Clone, Copy, Debug, PartialEq, Eq)]
pub enum Built {
    Value(Value),
    /// The message signals an Error with the trouble's text. Nothing changed.
    Trouble(Trouble),
    /// An integer that the message's rule names lies outside -2^127 to 2^127 - 1. Nothing changed.
    IntegerLimit,
    /// The cells used and the cells that the message takes together pass the limit. Nothing
    /// changed. A charge above 2^128 - 1 is told as 2^128 - 1.
    Cells { used: u32, charge: u128 },
    /// The heap wanted memory. Nothing changed.
    OutOfMemory,
}

pub fn answer_truth(holds: bool) -> Built
    ensures { result ≡ Built.Value (boolean holds) }
{
    Built::Value(if holds { Value::True } else { Value::False })
}

/// What a heap that made nothing answers.
pub fn answer_stop(stop: HeapStop) -> Built
    ensures { result ≡ stop_answer stop }
{
    match stop {
        HeapStop::Limit { used, charge } => Built::Cells { used, charge },
        HeapStop::OutOfMemory => Built::OutOfMemory,
    }
}
