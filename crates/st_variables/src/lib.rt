// Each variable that compiled code names stands: what is asked of a program, and what is claimed of its run, stands in specs/.
#![tactic(auto)]

mod known_programs;
mod variables_stand;

pub use known_programs::programs_know_their_variables;
pub use variables_stand::each_variable_stands;
