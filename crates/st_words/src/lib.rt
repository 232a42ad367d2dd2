// The words behind the program's name: a task and its options, as `clap` reads them.
#![tactic(auto)]

mod args;
mod command;

pub use command::{Command, Task, command_of};
