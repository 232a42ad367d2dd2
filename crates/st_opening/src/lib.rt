// From a checked program to a machine at the beginning of its run: image, code, literals and machine, with all memory taken.
#![tactic(auto)]

pub mod law;
mod opened;

pub use opened::open;
