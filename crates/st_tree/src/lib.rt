// The trees of methods, initializers and whole programs, equality without places, and copies.
#![tactic(auto)]

mod copy;
mod copy_units;
pub mod headers;
pub mod law;
pub mod tree;
pub mod units;
