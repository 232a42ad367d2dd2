// Interchange files: the texts of elements go in, units come out, or the first fault with its byte and reason
// (ANSI NCITS 319, 4.1). With the law that each file says one thing.
#![tactic(auto)]

pub mod comments;
pub mod elements;
pub mod filling;
pub mod headers;
pub mod law;
pub mod progress;
pub mod reading;
pub mod rows;
pub mod words;
