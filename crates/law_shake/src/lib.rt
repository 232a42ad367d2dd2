// Why a shaken file does what the whole file does, as laws over definitions: nothing here runs.
#![tactic(auto)]

mod files;
mod runs;

pub use files::{
    a_shaken_file_is_readable, a_shaken_file_meets_the_rules, needed_is_the_least_set,
    shaking_twice_is_shaking_once,
};
pub use runs::{a_shaken_file_runs_alike, only_needed_symbols_stand};
