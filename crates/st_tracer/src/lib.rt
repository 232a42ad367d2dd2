// A machine runs to its end as the rules run its program, and what it tells of handlers and termination blocks is written as lines, the last of which says how it stopped. The run's Transcript goes nowhere.
#![tactic(auto)]

mod lines;
mod tracing;

pub use tracing::trace_to_end;
