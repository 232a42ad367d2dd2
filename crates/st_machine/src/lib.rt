// The instruction machine: code runs over a flat stack of activations and a heap, and what stands settles each outcome. A step takes no memory.
#![tactic(auto)]

mod controls;
mod facts;
mod initializers;
mod instructions;
pub mod law;
mod loaded;
mod lookups;
mod looping;
mod machine;
mod opening;
mod operands;
mod performing;
mod room;
mod running;
mod scopes;
mod searches;
mod sending;
mod settling;
mod signals;
mod work;
mod works;

pub use loaded::Loaded;
pub use machine::Machine;
pub use operands::Passed;
pub use running::{Progress, Stats, goes_on, left_after};
pub use work::{Ending, Mode, Telling, Told, Work};
