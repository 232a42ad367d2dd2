// What the commands `check` and `list` write of the units of a program.
#![tactic(auto)]

mod lines;

pub use lines::{listing, ok_line};
