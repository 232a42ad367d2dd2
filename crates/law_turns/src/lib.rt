// The law of turns: so many lead the flat machine to one state, and there a machine is that was run on for so many.
#![tactic(auto)]

mod machines;
mod turns;

pub use machines::a_machine_goes_by_turns;
pub use turns::so_many_turns_lead_to_one_state;
