// What an activation ends with: a value, an unwinding or a limit.
use object_heap::Value;

/// Which limit ended a run.
#[derive(Clone, Copy, Debug, PartialEq, Eq)]
pub enum Limit {
    Steps,
    Depth,
    Cells,
    Integer,
}

/// Where an unwinding goes, by the number of an activation (section 5.5).
#[derive(Clone, Copy, Debug, PartialEq, Eq)]
pub enum Target {
    /// The home of a block, which answers.
    Home(u64),
    /// An `on:do:`, which answers.
    Protected(u64),
    /// An `on:do:`, which applies its receiver again.
    Retry(u64),
    /// An `on:do:`, which gets a new receiver and applies it.
    RetryWith(u64),
    /// A resume point, which answers.
    Resume(u64),
    /// A signal, in whose place another exception is signaled.
    Resignal { signal: u64, exception: u32 },
    /// The end of the program.
    Terminate,
}

/// What an activation ends with.
#[derive(Clone, Copy, Debug, PartialEq, Eq)]
pub enum Outcome {
    Answer(Value),
    Go(Target, Value),
    Stop(Limit),
}
