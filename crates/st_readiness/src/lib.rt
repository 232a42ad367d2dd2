// What sends and loops ask of a store holds in a sound one: a row that a send finds is ready, a loop that a send begins may begin, and one that stands may go on.
#![tactic(auto)]

mod loops;
mod sends;

pub use loops::loops_that_stand_go_on;
pub use sends::{what_a_send_does_stands, what_is_found_is_ready};
