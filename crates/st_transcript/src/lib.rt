// What a run writes: the bytes that go to the Transcript, and the text of an exception that nothing handled. A sink goes in with what is named by where it stands in the program and the heap; all bytes are written, or a prefix of them where the sink fails. No memory is taken.
#![tactic(auto)]

mod bytes;
mod pieces;
mod written;

pub use written::{put_unhandled, put_written};
