// Handlers: what a search in an environment comes to, and which turn of an exception is the innermost. A receiver's lookup, for any value, stands here too, and the numbers of the selectors that every image has.
#![tactic(auto)]

mod handlers;
pub mod law;
mod lookups;
mod turns;

pub use handlers::{Search, find_handler, fits, is_plain};
pub use lookups::{found_for, selector_number};
pub use turns::{FoundTurn, innermost_turn, is_live};
