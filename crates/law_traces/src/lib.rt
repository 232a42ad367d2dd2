// The law of traces, carried to the commands: what `trace` writes of a run is disciplined.
#![tactic(auto)]

mod law;

pub use law::each_trace_is_disciplined;
