// The flat heap: slots, bytes, blocks and scopes in lists of their own, all of whose memory is taken when it is made.
#![tactic(auto)]

mod areas;
mod cell_heap;
mod place;

pub use cell_heap::CellHeap;
