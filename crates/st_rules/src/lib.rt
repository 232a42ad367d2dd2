// The meaning of programs: the rules, the instruction machines and the built-in messages stand in specs/, in reading order; what is proved of them is the contract of a function here.
#![tactic(auto)]

mod flattened;
mod follows;
mod instructions;
mod never_stuck;
mod nothing_missing;
mod one_run;
mod same_run;
mod so_far;
mod some_run;
mod step_limits;
mod turns_end;
mod unwindings;

pub use flattened::the_flat_machine_follows_the_scoped_one;
pub use follows::the_machine_follows_the_rules;
pub use instructions::a_run_makes_boundedly_many_instructions;
pub use never_stuck::a_run_is_never_stuck;
pub use nothing_missing::on_compiled_code_nothing_is_missing;
pub use one_run::a_program_has_at_most_one_run;
pub use same_run::the_flat_run_is_the_rules_run;
pub use so_far::what_is_written_stays_written;
pub use some_run::a_program_has_a_run;
pub use step_limits::a_larger_step_limit_only_extends_the_transcript;
pub use turns_end::each_turn_comes_to_its_end;
pub use unwindings::every_unwinding_finds_its_target;
