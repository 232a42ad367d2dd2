// The literals of a program as objects of a heap. It takes the image of a program, and makes a heap that holds its literals and the texts of troubles, with room for all of them taken before.
#![tactic(auto)]

mod cells;
mod gather;
mod make;
mod opened;

pub use opened::literal_heap;
