// The law of traces: what each run tells of its handlers and termination blocks is disciplined.
#![tactic(auto)]

mod law;

pub use law::each_run_is_disciplined;
