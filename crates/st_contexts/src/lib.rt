// The activations that stand, on one flat stack: all its memory is taken when it is made, and a push or a pop takes constant time. What a caller of the machine is told of handlers and termination blocks stands here too.
#![tactic(auto)]

mod activation;
mod contexts;
mod outcome;
mod watch;

pub use activation::{
    Activation, Entry, Env, Frame, Mark, Numbered, Purpose, SearchState, Turn, Wait,
};
pub use contexts::{Contexts, DepthLimit};
pub use outcome::{Limit, Outcome, Target};
pub use watch::{Event, NoWatch, Watch};
