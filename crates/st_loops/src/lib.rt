// The loop messages, visit by visit, over any heap. What goes in is a message, its receiver and its arguments, or a loop's state and the value that it waited for; what comes out is what the loop asks for next, or its answer. The caller applies the blocks and sends `=`; between two visits a loop is one small value.
#![tactic(auto)]

mod additions;
mod advancing;
mod beginning;
mod classes;
mod counts;
mod deciding;
mod each;
mod elements;
mod ends;
mod gathering;
mod growth;
mod kind;
mod makers;
mod places;
mod requests;
mod searches;
mod starts;
mod state;
mod step;
mod troubles;
mod truth;
mod visits;

pub use advancing::advance;
pub use beginning::begin;
pub use kind::{LoopKind, loop_kind};
pub use requests::{is_kept, is_receiver};
pub use state::{Arguments, LoopState};
pub use step::LoopStep;
pub use troubles::first_trouble;
