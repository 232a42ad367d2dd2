// What each built-in message and each send does at once: an answer, or what a machine goes on with. A reply names the values that go on by where they stand, so that no memory is taken for them.
#![tactic(auto)]

mod arguments;
mod blocks;
mod booleans;
mod built_in;
mod classes;
mod collections;
mod copies;
mod dispatch;
mod exception_texts;
mod exceptions;
mod facts;
mod indexed;
mod law;
mod level;
mod loops;
mod makers;
mod numbers;
mod objects;
mod performs;
mod pieces;
mod printed;
mod questions;
mod radix;
mod reply;
mod row;
mod selectors;
mod slots;
mod spelling;
mod table;
mod texts;
mod transcripts;
mod values;

pub use blocks::block_message;
pub use booleans::boolean_message;
pub use classes::class_message;
pub use collections::collection_reply;
pub use dispatch::{row_message, send_message, super_message};
pub use exception_texts::exception_pieces;
pub use exceptions::exception_message;
pub use facts::ProgramFacts;
pub use law::what_is_ready_is_done;
pub use loops::loop_reply;
pub use numbers::number_reply;
pub use objects::object_message;
pub use pieces::{Piece, Words, words_of};
pub use reply::{Control, Passed, Reply, Written};
pub use row::{
    MessageRow, OfBlock, OfBoolean, OfClass, OfException, OfMaker, OfNumber, OfObject, OfQuestion,
    OfSelector, OfTranscript,
};
pub use selectors::selector_message;
pub use spelling::{arity_of, name_of};
pub use table::row_of;
pub use transcripts::transcript_message;
