// The program `stx` as one call over any source and any sinks: words and bytes go in, what is
// written, the report and the status come out.
#![tactic(auto)]

mod auditing;
mod finish;
mod generating;
mod law;
mod report;
mod running;
mod status;
mod top;
mod tracing;

pub use finish::report_want_of_memory;
pub use law::each_command_has_one_outcome;
pub use status::Status;
pub use top::stx;
