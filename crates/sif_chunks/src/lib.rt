// The elements of an interchange file: a reader for any source that gives it in any pieces, and a writer.
#![tactic(auto)]

mod appendix;
mod element;
mod law;
mod next;
mod reader;
mod step;
mod turn;
mod window;
mod writer;

pub use appendix::Appendix;
pub use element::MAX_TEXT;
pub use law::{each_input_splits_once, written_texts_are_split};
pub use next::Next;
pub use reader::ChunkReader;
pub use window::MAX_INPUT;
pub use writer::ChunkWriter;
