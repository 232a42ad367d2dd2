// The canonical text of a program: a definition goes in, the interchange file that says it comes out. What is
// promised: each byte of the text, or a prefix where the sink fails.
#![tactic(auto)]

mod elements;
mod law;
mod pieces;
mod sign;
mod symbols;
mod trees;
mod units;
mod words;

pub use law::{a_text_is_read_as_its_program, texts_are_canonical, what_is_read_is_readable};
pub use units::export;
