// A machine runs to its end as the rules run its program, and what it writes goes to a sink as it comes.
#![tactic(auto)]

mod ends;
mod law;

pub use ends::run_to_end;
pub use law::an_opened_machine_is_first;
