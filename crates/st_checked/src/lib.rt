// What the static rules give: programs that meet them have what the laws over runs ask for.
#![tactic(auto)]

mod collections;
mod variables;

pub use collections::checked_programs_keep_their_collections;
pub use variables::checked_units_know_their_variables;
