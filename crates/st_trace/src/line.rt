// The lines of a trace.

use st_contexts::Event;

/// How a run stopped: the word behind `stop`.
#[derive(Clone, Copy, Debug, PartialEq, Eq)]
pub enum StopWord {
    /// The run came to its end.
    Done,
    /// Nothing handled an exception that is none to go on from.
    Unhandled,
    /// The limit of steps.
    Steps,
    /// The limit of activations that stand at once.
    Depth,
    /// The limit of cells.
    Cells,
    /// The limit of integers.
    Integer,
}

/// A line: what a run tells, or how it stopped.
#[derive(Clone, Copy, Debug, PartialEq, Eq)]
pub enum Line {
    Tells(Event),
    Stops(StopWord),
}
