// Unwinding: activations are dropped from the innermost outwards, to a target or to the first termination block that is still to run.
#![tactic(auto)]

pub mod law;
mod unwound;

pub use unwound::{Unwound, unwind_to};
