// The run of the machine: what holds at each of its moments, and that it is the run of the rules.
#![tactic(auto)]

mod stays_ready;
mod whole_run;

pub use stays_ready::a_machine_stays_ready;
pub use whole_run::a_machines_run_is_the_rules_run;
