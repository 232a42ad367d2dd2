// Methods and bodies: a text and its tokens go in, the tree comes out, or the text's first fault
// with its reason (ANSI NCITS 319, 3.4). A first pass over the tokens finds the fault and makes no
// trees; a second makes the tree of tokens that are known to have one.
#![tactic(auto)]

mod built;
mod check;
mod class;
mod cursor;
pub mod law;
mod literal_arrays;
mod literals;
mod names;
mod parse;
mod read;
mod scan;
mod scan_state;
mod stop;
mod trees;

pub use parse::{body, method};
pub use stop::ParseStop;
