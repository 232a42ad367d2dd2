// The sends that a program keeps: which one a place has, and what it found.
#![tactic(auto)]

mod sends;

pub use sends::{KnownSend, SENDS, place_of, send_at};
