// What `gen` puts behind its input, what it writes, and a sink that keeps what is written to it.
#![tactic(auto)]

mod kept;
mod lines;

pub use kept::Kept;
pub use lines::{gen_line, generated};
